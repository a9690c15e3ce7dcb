ghost use Rattle.std.specs.Prelude.{◌≡◌, ◌<◌, ◌≤◌, ◌^◌, ℕ, List, [], length, slice_get, Some, Bool, true, IfOk, OnOk, OnErr};
ghost use Rattle.std.specs.List.{list_all};
ghost use Rattle.v_meaning.specs.Views.{View};
ghost use Rattle.x_expr.specs.declared.node.Node.{Node};
ghost use Rattle.x_expr.specs.declared.node.Node.TheVariants.{Constant};
ghost use Rattle.x_expr.specs.Nodes.{Extends, IsArena, IsNode, shape_at, shape_of};
ghost use Rattle.x_expr.specs.Values.{node_value, value_at, values_of};

use crate::folding::{Fold, folded};
use crate::node::Node;
use indexmap::IndexSet;
use lz_base::OutOfMemory;
use std::alloc::Global;
use std::marker::Model;

/// Nodes, each once. The place of a node is its number, and a node is over smaller numbers.
#[derive(Drop)]
pub struct Arena {
    nodes: IndexSet<Node>,
}

impl Model for Arena {
    ghost use Rattle.std.specs.Prelude.{List};
    ghost use Rattle.x_expr.specs.declared.node.Node.{Node};

    ghost Value = { List Node };

    ghost use Rattle.x_expr.specs.Nodes.{IsArena};

    ghost view = { λ a. a.nodes.keys };

    ghost invariant = { λ a. IsArena a.nodes.keys };
}

impl Arena {
    /// No nodes.
    pub fn new(alloc: Global) -> Arena
        ensures { result ≡ [] }
    {
        Arena {
            nodes: IndexSet::new(alloc),
        }
    }

    /// How many nodes there are. It takes no memory.
    pub fn len(&self) -> u64
        ensures count { result ≡ length self.now }
        ensures arena { IsArena self.now }
    {
        self.nodes.len() as u64
    }

    /// The node of a number. It takes no memory.
    pub fn node(&self, number: u64) -> &Node
        requires { number < length self.now }
        ensures there { slice_get self.now number ≡ Some result.now }
        ensures arena { IsArena self.now }
    {
        self.nodes.get_index(number as usize).unwrap()
    }

    /// The number of an equal node, or of this one behind all others. Where no memory is found, the arena is as before.
    pub fn mk(&mut self, node: Node) -> Result<u64, OutOfMemory>
        requires { IsNode self.old node }
        ensures there { IfOk result (λ n. slice_get self.new n ≡ Some node) }
        ensures within { IfOk result (λ n. n < length self.new) }
        ensures shape { IfOk result (λ n. shape_at self.new n ≡ Some (shape_of node)) }
        ensures value { IfOk result (λ n. (v : View) → value_at v self.new n ≡ node_value v (values_of v self.new) node) }
        ensures found { OnOk result ((n : ℕ) → slice_get self.old n ≡ Some node → self.new ≡ self.old) }
        ensures extends { OnOk result (Extends self.old self.new) }
        ensures longer { length self.old ≤ length self.new }
        ensures all { (test : Node → Bool) → test node ≡ true → list_all test self.old ≡ true → list_all test self.new ≡ true }
        ensures arena { IsArena self.new }
        ensures err { OnErr result (self.new ≡ self.old) }
    {
        let (number, _) = self.nodes.insert_full(node)?;
        Ok(number as u64)
    }

    /// The number of a node that has the value of this one: of one that is there or of a constant, where constants and
    /// trivial selections tell, and else of the node itself. Where no memory is found, the arena is as before.
    pub fn fold(&mut self, node: Node) -> Result<u64, OutOfMemory>
        requires { IsNode self.old node }
        ensures within { IfOk result (λ n. n < length self.new) }
        ensures shape { IfOk result (λ n. shape_at self.new n ≡ Some (shape_of node)) }
        ensures value { IfOk result (λ n. (v : View) → value_at v self.new n ≡ node_value v (values_of v self.new) node) }
        ensures extends { OnOk result (Extends self.old self.new) }
        ensures longer { length self.old ≤ length self.new }
        ensures all { (test : Node → Bool) → ((width value : ℕ) → test (Constant width value) ≡ true) → test node ≡ true → list_all test self.old ≡ true → list_all test self.new ≡ true }
        ensures arena { IsArena self.new }
        ensures err { OnErr result (self.new ≡ self.old) }
    {
        match folded(self, node) {
            Fold::There(number) => Ok(number),
            Fold::Constant { width, value } => {
                let number = self.mk(Node::Constant { width, value })?;
                Ok(number)
            }
            Fold::Itself => {
                let number = self.mk(node)?;
                Ok(number)
            }
        }
    }
}
