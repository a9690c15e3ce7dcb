/// The most bytes of a source file.
pub const SOURCE_LIMIT: u64 = 1 << 20;

/// The most bytes of every other text: netlists, stimuli and traces among them.
pub const TEXT_LIMIT: u64 = 1 << 28;
