//! Limits of what is read.

/// The most walks or turn words in a text.
pub const MOST_LINES: u64 = 1_000_000;

/// The most vertices of a walk in a text: one more than its darts.
pub const MOST_WALK_VERTICES: u64 = 1_000_001;

/// The most darts of a walk in a text of version 2.
pub const MOST_WALK_DARTS: u64 = 1_000_000;

/// The most darts of all walks together in a text of version 2.
pub const MOST_DARTS: u64 = 16_000_000;

/// The greatest power of a group.
pub const MOST_POWER: u32 = 1_000_000;

/// The most entries of a turn word in a text.
pub const MOST_ENTRIES: u64 = turn_words::MOST_ENTRIES as u64;

/// The greatest peak that a list of moves may declare.
pub const MOST_PEAK: u32 = surf_model::MOST_PEAK;
