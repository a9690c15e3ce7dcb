use crate::Arena;
use lz_base::{Items, Name, Port};

/// What a module is seen as from outside: its name, its clock where it has a process, its inputs but the clock, and its
/// outputs.
#[derive(Debug, Drop)]
pub struct Head {
    pub name: Name,
    pub clock: Option<Name>,
    pub inputs: Items<Port>,
    pub outputs: Items<Port>,
}

/// What a variable or a memory holds before the first cycle (IEEE Std 1364-2005, 4.9 and 6.2.1).
#[derive(Clone, Copy, Debug, PartialEq, Eq)]
pub enum First {
    /// A variable of this width holds this value.
    Given(u32, u128),
    /// The bits of a variable of this width are open.
    Open(u32),
    /// The bits of a memory of so many words of this width are open.
    Words(u32, u32),
}

/// How many bits there are: of each input but the clock, of each variable and memory in the order of their declarations,
/// with what they hold at first, and of each site.
#[derive(Debug, Drop)]
pub struct Sizes {
    pub inputs: Items<u32>,
    pub firsts: Items<First>,
    pub sites: Items<u32>,
}

/// The nodes of what the outputs show, and of what the variables and the memories become.
#[derive(Debug, Drop)]
pub struct Roots {
    pub outputs: Items<u64>,
    pub variables: Items<u64>,
    pub memories: Items<u64>,
}

/// What a module does in a cycle, whatever the bits of its sites are.
#[derive(Drop)]
pub struct Flow {
    pub head: Head,
    pub sizes: Sizes,
    pub arena: Arena,
    pub roots: Roots,
}

/// A site, and the node of the word that it has.
#[derive(Clone, Copy, Debug, PartialEq, Eq)]
pub struct Step {
    pub site: u32,
    pub root: u64,
}

/// Which bits the sites of a module have in a cycle, by its inputs, variables and memories: those of the site's step, and
/// 0 where it has none.
#[derive(Drop)]
pub struct Plan {
    pub sizes: Sizes,
    pub arena: Arena,
    pub steps: Items<Step>,
}

/// What a module does in a cycle where its sites have the bits of a plan. The roots are nodes of the plan's arena.
#[derive(Drop)]
pub struct Chosen {
    pub head: Head,
    pub plan: Plan,
    pub roots: Roots,
}

/// A register: its width, what it holds at first, and the node of what it becomes.
#[derive(Clone, Copy, Debug, PartialEq, Eq)]
pub struct Register {
    pub width: u32,
    pub first: u128,
    pub root: u64,
}

/// What a module does in a cycle where its memories are registers: one for each variable, and behind these one for each
/// word of each memory, by ascending address. Both stand in the order of the declarations. The arena is over registers,
/// which are its variables. The plan is that of the module.
#[derive(Drop)]
pub struct Flat {
    pub head: Head,
    pub arena: Arena,
    pub outputs: Items<u64>,
    pub registers: Items<Register>,
    pub plan: Plan,
}
