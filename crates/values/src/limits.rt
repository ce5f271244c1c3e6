//! The limits of texts, and of what a page holds: each stands here once (`docs/LANGUAGE.md`, "Limits").

/// As many nodes a component lays out at the most.
pub const MOST_NODES: usize = 4096;

/// As many owners a component has at the most: its areas, and the top.
pub const MOST_OWNERS: usize = 1024;

/// As many texts a table holds at the most, the empty one among them.
pub const MOST_TEXTS: usize = 65536;

/// The greatest number of rows that a store may be declared with.
pub const MOST_ROWS: usize = 4096;

/// As many blocks and elements are open at the most, one within the other.
pub const MOST_OPEN: usize = 32;

/// As many tokens an expression has at the most.
pub const MOST_EXPRESSION_TOKENS: usize = 256;

/// As many phases a script has at the most.
pub const MOST_PHASES: usize = 64;

/// As many lanes a phase has at the most.
pub const MOST_LANES: usize = 16;

/// The greatest number that a text may write.
pub const GREATEST_NUMBER: u32 = 2147483647;

/// The greatest number that a text may write behind a `-`.
pub const GREATEST_NEGATED: u32 = 2147483648;

/// As many bytes an input has at the most.
pub const MOST_INPUT_BYTES: usize = 1048576;
