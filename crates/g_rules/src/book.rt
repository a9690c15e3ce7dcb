ghost use Rattle.std.specs.Prelude.{◌≡◌, ◌++◌, ◌∷◌, [], OnOk, OnErr};
ghost use Rattle.g_rules.specs.Keeps.{HasNumbers, DeepHasNumbers, KeepsValue, KeepsDeepValue};

use crate::{Deep, Rewrite, Shape};
use lz_base::{Items, OutOfMemory};
use std::alloc::Global;

/// A closure that makes something of a shape and keeps its value.
#[derive(Drop)]
pub struct GateRule {
    pub f: Box<dyn Fn(Shape) -> Rewrite>,
    ghost callable: { IsAlwaysCallable f },
    ghost keeps: { (s : _) (r : _) → HasNumbers s → post f s r → KeepsValue s r },
}

impl GateRule {
    /// A rule, where the closure may be called on every shape and keeps the value of each.
    pub fn new(f: Box<dyn Fn(Shape) -> Rewrite>) -> GateRule
        requires callable { IsAlwaysCallable f }
        requires keeps { (s : _) (r : _) → HasNumbers s → post f s r → KeepsValue s r }
        ensures { result.f ≡ f }
    {
        GateRule { f }
    }

    /// What the rule makes of a shape.
    pub fn rewrite(&self, shape: Shape) -> Rewrite
        ensures answer { post self.now.f shape result }
        ensures keeps { KeepsValue shape result }
    {
        (self.f)(shape)
    }
}

/// A closure that makes something of a shape and of the gates below it, and keeps the shape's value.
#[derive(Drop)]
pub struct DeepRule {
    pub f: Box<dyn Fn(Deep) -> Rewrite>,
    ghost callable: { IsAlwaysCallable f },
    ghost keeps: { (d : _) (r : _) → DeepHasNumbers d → post f d r → KeepsDeepValue d r },
}

impl DeepRule {
    /// A rule, where the closure may be called on every shape with gates below it and keeps the value of each.
    pub fn new(f: Box<dyn Fn(Deep) -> Rewrite>) -> DeepRule
        requires callable { IsAlwaysCallable f }
        requires keeps { (d : _) (r : _) → DeepHasNumbers d → post f d r → KeepsDeepValue d r }
        ensures { result.f ≡ f }
    {
        DeepRule { f }
    }

    /// What the rule makes of a shape with these gates below it.
    pub fn rewrite(&self, deep: Deep) -> Rewrite
        ensures answer { post self.now.f deep result }
        ensures keeps { KeepsDeepValue deep result }
    {
        (self.f)(deep)
    }
}

/// Rules in their order: first the plain ones, then those that look at the gates below.
#[derive(Drop)]
pub struct RuleBook {
    pub plain: Items<GateRule>,
    pub deep: Items<DeepRule>,
}

impl RuleBook {
    /// A book without rules. It takes no memory.
    pub fn new(alloc: Global) -> RuleBook
        ensures plain { result.plain ≡ [] }
        ensures deep { result.deep ≡ [] }
    {
        RuleBook {
            plain: Items::new(alloc),
            deep: Items::new(alloc),
        }
    }

    /// Appends a plain rule. Where no memory is found, the book is as before, and the rule is dropped.
    pub fn push(&mut self, rule: GateRule) -> Result<(), OutOfMemory>
        ensures ok { OnOk result (self.new ≡ record self.old { plain = self.old.plain ++ rule ∷ [] }) }
        ensures err { OnErr result (self.new ≡ self.old) }
    {
        self.plain.push(rule)?;
        Ok(())
    }

    /// Appends a rule that looks at the gates below. Where no memory is found, the book is as before, and the rule is
    /// dropped.
    pub fn push_deep(&mut self, rule: DeepRule) -> Result<(), OutOfMemory>
        ensures ok { OnOk result (self.new ≡ record self.old { deep = self.old.deep ++ rule ∷ [] }) }
        ensures err { OnErr result (self.new ≡ self.old) }
    {
        self.deep.push(rule)?;
        Ok(())
    }
}
