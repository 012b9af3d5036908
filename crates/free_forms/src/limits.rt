//! How large a mesh and walks may be, and how long lists of moves become.

/// The most sides of an open mesh on which walks are made normal.
pub const MOST_OPEN_SIDES: u32 = 16_384;

/// The most darts of the walks that are made normal, together.
pub const MOST_OPEN_DARTS: u32 = 512;

/// The most moves that lead between walks within these limits, and the most darts of a walk on the way: so many sides for each dart.
pub const MOST_OPEN_STEPS: u32 = 8_388_608;
