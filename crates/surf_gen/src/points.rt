//! The points of a chain of tori. The definitions speak of them.
ghost use Rattle.std.specs.Prelude.{◌≡◌};
ghost use Rattle.surf_gen.specs.Chains.{is_glued};

/// A point of a torus, and the cell that begins there: the one to the next row and the next column.
#[derive(Clone, Copy, Debug, PartialEq, Eq)]
pub struct Point {
    pub torus: u32,
    pub row: u32,
    pub column: u32,
}

impl Point {
    /// Whether the point is glued to one of the torus before.
    pub(crate) fn is_glued(self) -> bool
        ensures { result ≡ is_glued self }
    {
        self.torus > 0 && self.row < 2 && self.column < 2
    }
}
