//! The cut of a surface into a polygon.
ghost use Rattle.std.specs.Prelude.{IfOk};
ghost use Rattle.tree_cotree.specs.Splits.{IsSplit};
ghost use Rattle.tree_cotree.specs.Colourings.{IsColouring};
ghost use Rattle.polygon_cut.specs.Polygons.{IsCutFrom, IsCutByColours};

use crate::polygon::Polygon;
use crate::ring::{LabelledRing, label_ring, leftover_in_root};
use crate::turning::places_by_turns;
use halfedge_map::Surface;
use std::alloc::{AllocError, Global};
use tree_cotree::{Colouring, Split};

/// Cuts a surface along the tree and the leftover edges of a split. The last side lies in the root face of the cotree.
pub fn cut(alloc: Global, surface: &Surface, split: &Split) -> Result<Polygon, AllocError>
    requires { IsSplit surface.now split.now }
    ensures { IfOk result (IsCutFrom surface.now split.now) }
{
    cut_by_colours(alloc, surface, split.colouring())
}

/// Cuts a surface by the colours of its edges, which are all of a split that the cut looks at.
pub fn cut_by_colours(
    alloc: Global,
    surface: &Surface,
    colouring: &Colouring,
) -> Result<Polygon, AllocError>
    requires { IsColouring surface.now colouring.now }
    ensures { IfOk result (IsCutByColours surface.now colouring.now) }
{
    let Some(last) = leftover_in_root(surface, colouring) else {
        return Ok(Polygon {
            degree: 0,
            sides: Vec::new(alloc),
            labels: Vec::new(alloc),
            places: Vec::new(alloc),
        });
    };
    let LabelledRing { sides, labels } = label_ring(alloc, surface, colouring, last)?;
    let places = places_by_turns(alloc, surface, &sides, &labels)?;
    Ok(Polygon {
        degree: sides.len() as u32,
        sides,
        labels,
        places,
    })
}
