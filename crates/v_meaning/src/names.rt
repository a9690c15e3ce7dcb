use lz_base::Name;

/// What a name is declared as. The number says which word of a view is its own, or which memory.
#[derive(Clone, Copy, Debug, PartialEq, Eq)]
pub enum Kind {
    /// A parameter of this value (IEEE Std 1364-2005, 4.10).
    Parameter(u128),
    /// The input in the first posedge event of the text.
    Clock,
    /// Another input net.
    Input(u32),
    /// A wire or an output net (4.2.1).
    Net(u32),
    /// A variable that is a target in a combinational process.
    Combinational(u32),
    /// Another variable (4.2.2).
    Variable(u32),
    /// Its number, its lowest address, and how many words it has (4.9).
    Memory(u32, u32, u32),
}

/// A declared name and what is known of it.
#[derive(Debug, Drop)]
pub struct Entry {
    pub name: Name,
    /// Its first byte.
    pub at: u64,
    pub kind: Kind,
    /// The width of its word, or of each of its words.
    pub width: u32,
    pub signed: bool,
    /// The number of its lowest bit (4.3).
    pub low: u32,
    /// Whether it was declared with a range.
    pub is_vector: bool,
    /// The value that a variable has before the first cycle, where one is declared (6.2.1).
    pub first: Option<u128>,
}
