//! A walk once along the ring of tree and leftover edges, which labels each dart.
ghost use Rattle.std.specs.Prelude.{◌≡◌, ◌<◌, ℕ, true, false, length, IfOk, MatchOption};
ghost use Rattle.surf_model.specs.FaceLists.{HasFileSize};
ghost use Rattle.halfedge_map.specs.OrientedMeshes.{IsOrientedSurface};
ghost use Rattle.halfedge_map.specs.DartMaps.{darts_of, edge_of, face_of};
ghost use Rattle.halfedge_map.specs.RotationSystems.{rotations_of};
ghost use Rattle.tree_cotree.specs.RingViews.{dart_numbers};
ghost use Rattle.tree_cotree.specs.Splits.{is_left, is_left_kind, kind_of};
ghost use Rattle.tree_cotree.specs.Colourings.{IsColouring};
ghost use Rattle.tree_cotree.specs.ColouredTrees.{without_ways};
ghost use Rattle.polygon_cut.specs.Polygons.{outer_ring};
ghost use Rattle.polygon_cut.specs.StoredPolygons.{dart_after_kind, IsWalked};

use halfedge_map::Surface;
use std::alloc::{AllocError, Global};
use surf_model::DartName;
use tree_cotree::{Colouring, Kind};

/// The leftover darts along the ring, and for each dart the number of them before it.
#[derive(Drop)]
pub(crate) struct LabelledRing {
    pub(crate) sides: Vec<DartName>,
    pub(crate) labels: Vec<u32>,
}

/// Whether edges of a kind are left over.
fn is_leftover(kind: Kind) -> bool
    ensures { result ≡ is_left_kind kind }
{
    match kind {
        Kind::Left => true,
        Kind::Tree | Kind::Cotree => false,
    }
}

/// A leftover dart in the root face of the cotree, if there is one.
pub(crate) fn leftover_in_root(surface: &Surface, colouring: &Colouring) -> Option<DartName>
    requires { IsColouring surface.now colouring.now }
    ensures dart { MatchOption result
        ((d : ℕ) → d < darts_of surface.now → face_of surface.now d ≡ colouring.now.root_face
        → is_left (without_ways colouring.now) (edge_of surface.now d) ≡ false)
        (λ dart. (dart.0 < darts_of surface.now) × (face_of surface.now dart.0 ≡ colouring.now.root_face)
        × (is_left (without_ways colouring.now) (edge_of surface.now dart.0) ≡ true)) }
    // What holds of every surface.
    ensures valid { IsOrientedSurface surface.now }
    ensures small { HasFileSize surface.now.mesh }
{
    let face = colouring.root_face();
    let first = surface.faces().first_dart(face).0;
    for at in 0..surface.faces().sides(face) {
        let dart = DartName(first + at);
        if is_leftover(colouring.kind(surface.edge_of(dart))) {
            return Some(dart);
        }
    }
    None
}

/// The dart after a dart of a kind on the ring of tree and leftover edges.
fn dart_after(surface: &Surface, kind: Kind, dart: DartName) -> DartName
    requires { dart.0 < darts_of surface.now }
    ensures { result.0 ≡ dart_after_kind (rotations_of surface.now) kind dart.0 }
{
    match kind {
        Kind::Tree | Kind::Left => surface.next(dart),
        Kind::Cotree => surface.next(surface.twin(dart)),
    }
}

/// Goes once round the ring of tree and leftover edges, from the dart after a given one up to that one.
pub(crate) fn label_ring(
    alloc: Global,
    surface: &Surface,
    colouring: &Colouring,
    last: DartName,
) -> Result<LabelledRing, AllocError>
    requires colouring { IsColouring surface.now colouring.now }
    requires last { last.0 < darts_of surface.now }
    ensures { IfOk result (λ ring. IsWalked (rotations_of surface.now) (outer_ring surface.now (without_ways colouring.now))
        (is_left (without_ways colouring.now)) (outer_ring surface.now (without_ways colouring.now) last.0) (darts_of surface.now)
        (dart_numbers ring.sides.items) ring.labels.items) }
{
    let mut labels = vec![in alloc; 0; surface.darts() as usize]?;
    let mut sides = Vec::with_capacity(alloc, colouring.genus() as usize * 4)?;
    let mut dart = dart_after(surface, colouring.kind(surface.edge_of(last)), last);
    for _step in 0..surface.darts() {
        let kind = colouring.kind(surface.edge_of(dart));
        labels[dart.0 as usize] = sides.len() as u32;
        if is_leftover(kind) {
            sides.push(dart)?;
        }
        dart = dart_after(surface, kind, dart);
    }
    Ok(LabelledRing { sides, labels })
}
