//! How large the largest meshes are, and the longest walks that moves pass.

/// The most vertices of a mesh.
pub const MOST_VERTICES: u32 = 1_000_000;

/// The most sides of a mesh: those of all its faces together.
pub const MOST_SIDES: u32 = 4_000_000;

/// The greatest peak that a list of moves may declare, in darts.
pub const MOST_PEAK: u32 = 16_000_000;
