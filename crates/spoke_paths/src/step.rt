//! The steps on a path of spokes.

/// One step on a path of spokes. A place `at` counts the spokes of the path from 0, so at an even place the path
/// stands at the vertex, and at an odd place in the middle of the polygon.
///
/// A quad has a side `a` and its partner `c`: the place of spoke `c + 1` is one before that of spoke `a`, and the
/// place of spoke `a + 1` is one before that of spoke `c`. All sums are modulo the degree.
#[derive(Clone, Copy, Debug, PartialEq, Eq)]
pub enum PathStep {
    /// The spokes at the place and behind it are equal, and both go.
    Spur {
        at: u32,
    },
    /// The spokes at the place and behind it are one way round a quad, and the other way comes in their stead. Down,
    /// at the vertex, `a, a + 1` becomes `c + 1, c`; in the middle `c + 1, a` becomes `c, a + 1`. Up is the reverse.
    Turn {
        at: u32,
        side: u32,
        partner: u32,
        up: bool,
    },
}
