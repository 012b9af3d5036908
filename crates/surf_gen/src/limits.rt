//! How large chains of tori are.

/// The most tori of a chain.
pub const MOST_GENUS: u32 = 8;

/// The fewest points in a row of a torus: the two cells that are left out are then apart.
pub const LEAST_GRID: u32 = 5;

/// The most points in a row of a torus.
pub const MOST_GRID: u32 = 200;
