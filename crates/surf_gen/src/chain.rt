//! The points of a chain of tori, and its vertices and cells.
ghost use Rattle.std.specs.Prelude.{◌≡◌, ◌↔◌, ◌*◌, ◌-◌, ◌+◌, ◌<◌, ◌^◌, IsTrue, length, map};
ghost use Rattle.surf_gen.specs.Chains.{glued_before, vertex_number, number, is_cut_out, face, vertices, cells};
ghost use Rattle.surf_gen.specs.Sizes.{IsChainSize};
ghost use Rattle.surf_gen.specs.Places.{IsPoint};

use crate::points::Point;

/// So many tori, each of so many rows and columns.
#[derive(Clone, Copy)]
pub(crate) struct Chain {
    pub(crate) genus: u32,
    pub(crate) grid: u32,
    ghost sized: { IsChainSize genus grid },
}

impl Chain {
    /// The number of vertices.
    pub(crate) fn vertices(self) -> u32
        ensures { result ≡ length (vertices self.genus self.grid) }
    {
        self.genus * self.grid * self.grid - 4 * (self.genus - 1)
    }

    /// The number of cells that are left.
    pub(crate) fn cells(self) -> u32
        ensures { result ≡ length (cells self.genus self.grid) }
    {
        self.genus * self.grid * self.grid - 2 * (self.genus - 1)
    }

    /// Whether a cell is cut out, so that another torus hangs there.
    pub(crate) fn is_cut_out(self, cell: Point) -> bool
        requires { cell.torus < self.genus }
        ensures { result ≡ is_cut_out self.genus cell }
    {
        (cell.torus + 1 < self.genus && cell.row == 2 && cell.column == 2)
            || (cell.torus > 0 && cell.row == 0 && cell.column == 0)
    }

    /// The number of the vertex that a point is.
    pub(crate) fn number(self, point: Point) -> u32
        requires { IsPoint self.genus self.grid point }
        ensures { result ≡ number self.grid point }
    {
        if !point.is_glued() {
            return self.vertex_number(point);
        }
        self.vertex_number(Point {
            torus: point.torus - 1,
            row: 2 + point.column,
            column: 2 + point.row,
        })
    }

    /// The number of the vertex that a point is which is not glued to one of the torus before.
    fn vertex_number(self, point: Point) -> u32
        requires { IsPoint self.genus self.grid point }
        ensures { result ≡ vertex_number self.grid point }
    {
        let before = (point.torus * self.grid + point.row) * self.grid + point.column;
        match (point.torus, point.row) {
            (0, _) => before,
            (torus, 0) => before - 4 * (torus - 1) - 2,
            (torus, _) => before - 4 * torus,
        }
    }

    /// The vertices at the corners of a cell, in order round it.
    pub(crate) fn corners(self, cell: Point) -> [u32; 4]
        requires { IsPoint self.genus self.grid cell }
        ensures { result ≡ face self.grid cell }
    {
        let (next_row, next_column) = ((cell.row + 1) % self.grid, (cell.column + 1) % self.grid);
        [
            self.number(cell),
            self.number(Point {
                column: next_column,
                ..cell
            }),
            self.number(Point {
                row: next_row,
                column: next_column,
                ..cell
            }),
            self.number(Point {
                row: next_row,
                ..cell
            }),
        ]
    }
}
