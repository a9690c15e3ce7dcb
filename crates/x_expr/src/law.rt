ghost use Rattle.std.specs.Prelude.{◌≡◌, ◌<◌, ◌≤◌, ℕ, List, Some, length, slice_get};
ghost use Rattle.v_meaning.specs.Views.{View};
ghost use Rattle.x_expr.specs.declared.node.Node.{Node};
ghost use Rattle.x_expr.specs.declared.node.Shape.{Shape};
ghost use Rattle.x_expr.specs.Nodes.{Extends, IsArena, IsNode, shape_at};
ghost use Rattle.x_expr.specs.Values.{Fits, node_value, value_at, values_of};

/// Law: a node of an arena keeps to its widths and is over nodes that are there, and its value is what it makes of theirs.
pub fn nodes_stand()
    ensures node { (nodes : List Node) (number : ℕ) (node : Node) → IsArena nodes → slice_get nodes number ≡ Some node → IsNode nodes node }
    ensures value { (nodes : List Node) (number : ℕ) (node : Node) → IsArena nodes → slice_get nodes number ≡ Some node → (v : View) → value_at v nodes number ≡ node_value v (values_of v nodes) node }
{}

/// Law: the value of a node of an arena fits what it stands for, whatever is read.
pub fn values_fit()
    ensures { (nodes : List Node) (number : ℕ) (shape : Shape) → IsArena nodes → shape_at nodes number ≡ Some shape → (v : View) → Fits shape (value_at v nodes number) }
{}

/// Law: where nodes come behind, those that were there keep what they stand for and their values. What has grown twice has
/// grown.
pub fn values_stay()
    ensures longer { (old new : List Node) → Extends old new → length old ≤ length new }
    ensures shape { (old new : List Node) (number : ℕ) → Extends old new → number < length old → shape_at new number ≡ shape_at old number }
    ensures value { (old new : List Node) (number : ℕ) (v : View) → Extends old new → number < length old → value_at v new number ≡ value_at v old number }
    ensures node { (old new : List Node) (node : Node) → Extends old new → IsNode old node → IsNode new node }
    ensures itself { (nodes : List Node) → Extends nodes nodes }
    ensures further { (a b c : List Node) → Extends a b → Extends b c → Extends a c }
{}
