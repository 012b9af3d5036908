//! Labellings of a surface.
ghost use Rattle.std.specs.Prelude.{IfOk, MatchOption};
ghost use Rattle.surf_model.specs.Genera.{HasGenus};
ghost use Rattle.walk_translate.specs.SurfaceLabels.{IsSurfaceLabelling, HasSphereSplit, IsLabelledByCut};

use halfedge_map::Surface;
use polygon_cut::cut_by_colours;
use quad_system::{FromPolygon, GoodLabelling};
use std::alloc::{AllocError, Global};
use tree_cotree::colour_edges;

/// A labelling of a surface that is good and full and has the signs of the surface, with four spokes for each handle; none
/// where the surface is a sphere.
pub fn label_surface(alloc: Global, surface: &Surface) -> Result<Option<GoodLabelling>, AllocError>
    ensures { IfOk result (λ found. MatchOption found (HasGenus surface.now.mesh 0) (IsSurfaceLabelling surface.now)) }
{
    // The proof reads what holds of every surface.
    let _ = surface.faces();
    label_by_cut(alloc, surface)
}

/// The labelling of a polygon into which the surface is cut; none where no edge is left over, as on a sphere. It says of which
/// cut the labelling is, where `label_surface` says what holds of it.
pub fn label_by_cut(alloc: Global, surface: &Surface) -> Result<Option<GoodLabelling>, AllocError>
    ensures { IfOk result (λ found. MatchOption found (HasSphereSplit surface.now) (IsLabelledByCut surface.now)) }
{
    let colouring = colour_edges(alloc, surface)?;
    if colouring.genus() == 0 {
        return Ok(None);
    }
    let polygon = cut_by_colours(alloc, surface, &colouring)?;
    drop(colouring);
    let good = GoodLabelling::from_spent_polygon(alloc, surface, polygon)?;
    Ok(Some(good))
}
