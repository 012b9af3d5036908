//! The text of a chain of tori.
ghost use Rattle.std.specs.Prelude.{◌≡◌, [], ◌∷◌, ◌++◌, ◌<◌, OnOk, IfOk};
ghost use Rattle.surf_gen.specs.ChainTexts.{chain_text};
ghost use Rattle.surf_gen.specs.Sizes.{IsChainSize};
ghost use Rattle.surf_gen.specs.Places.{IsPoint};
ghost use Rattle.surf_gen.specs.Parts.{part_text, points_of_torus, points_of_row};
ghost use Rattle.surf_gen.specs.Chains.{points};

use crate::chain::Chain;
use crate::line::put_line;
use crate::points::Point;
use std::alloc::{AllocError, Global};

/// The longest line of a vertex: a torus, a row and a column, with blanks and a line feed.
const VERTEX_ROOM: usize = 10;

/// The longest line of a face: its number of corners and four vertices, with blanks and a line feed.
const FACE_ROOM: usize = 30;

/// Room for the keyword and the counts.
const HEAD_ROOM: usize = 32;

/// The text of a chain of `genus` tori of `grid` times `grid` points each, in the format OFF. A vertex has its torus, row
/// and column for coordinates.
pub fn chain_of_tori(alloc: Global, genus: u32, grid: u32) -> Result<Vec<u8>, AllocError>
    requires { IsChainSize genus grid }
    ensures { IfOk result (λ text. text.items ≡ chain_text genus grid) }
{
    let chain = Chain { genus, grid };
    let (vertices, cells) = (chain.vertices(), chain.cells());
    let room = HEAD_ROOM + vertices as usize * VERTEX_ROOM + cells as usize * FACE_ROOM;
    let mut text = Vec::with_capacity(alloc, room)?;
    text.extend_from_slice(b"OFF\n")?;
    put_line(&mut text, &[vertices, cells, 0])?;
    chain.put_part(&mut text, Part::Vertices)?;
    chain.put_part(&mut text, Part::Faces)?;
    Ok(text)
}

/// A part of the text, with a line for each point that is a vertex or each cell that is a face.
#[derive(Clone, Copy)]
enum Part {
    Vertices,
    Faces,
}

impl Chain {
    /// Puts the lines of a part last.
    fn put_part(self, text: &mut Vec<u8>, part: Part) -> Result<(), AllocError>
        ensures { OnOk result (text.new.items ≡ text.old.items ++ part_text self.genus self.grid part (points self.genus self.grid)) }
    {
        for torus in 0..self.genus {
            self.put_torus(text, part, torus)?;
        }
        Ok(())
    }

    /// Puts the lines of one torus last.
    fn put_torus(self, text: &mut Vec<u8>, part: Part, torus: u32) -> Result<(), AllocError>
        requires { torus < self.genus }
        ensures { OnOk result (text.new.items ≡ text.old.items ++ part_text self.genus self.grid part (points_of_torus self.grid torus)) }
    {
        for row in 0..self.grid {
            self.put_row(text, part, torus, row)?;
        }
        Ok(())
    }

    /// Puts the lines of one row last.
    fn put_row(self, text: &mut Vec<u8>, part: Part, torus: u32, row: u32) -> Result<(), AllocError>
        requires torus { torus < self.genus }
        requires row { row < self.grid }
        ensures { OnOk result (text.new.items ≡ text.old.items ++ part_text self.genus self.grid part (points_of_row self.grid torus row)) }
    {
        for column in 0..self.grid {
            self.put_point(text, part, Point { torus, row, column })?;
        }
        Ok(())
    }

    /// Puts the line of a point last, if it has one in this part.
    fn put_point(self, text: &mut Vec<u8>, part: Part, point: Point) -> Result<(), AllocError>
        requires { IsPoint self.genus self.grid point }
        ensures { OnOk result (text.new.items ≡ text.old.items ++ part_text self.genus self.grid part (point ∷ [])) }
    {
        match part {
            Part::Vertices if !point.is_glued() => {
                put_line(text, &[point.torus, point.row, point.column])
            }
            Part::Faces if !self.is_cut_out(point) => {
                let [a, b, c, d] = self.corners(point);
                put_line(text, &[4, a, b, c, d])
            }
            _ => Ok(()),
        }
    }
}
