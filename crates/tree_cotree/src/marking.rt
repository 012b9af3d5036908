//! Edges that are given a kind by the darts that a search keeps.
ghost use Rattle.std.specs.Prelude.{◌≡◌, ◌<◌, ◌^◌, ℕ, true, false, length, Some};
ghost use Rattle.surf_model.specs.Numbers.{count_below};
ghost use Rattle.halfedge_map.specs.OrientedMeshes.{IsOrientedSurface};
ghost use Rattle.halfedge_map.specs.DartMaps.{darts_of, edge_of};
ghost use Rattle.halfedge_map.specs.RotationSystems.{rotations_of};
ghost use Rattle.tree_cotree.specs.Searches.{kept_at, has_kind};
ghost use Rattle.tree_cotree.specs.Markings.{AreDartsApart, IsMarked};
ghost use Rattle.tree_cotree.specs.declared.split.Kind.TheVariants.{Left};

use crate::maybe_number::MaybeNumber;
use crate::search::is_same;
use crate::split::Kind;
use halfedge_map::Surface;
use surf_model::{DartName, EdgeName};

/// Gives the edges of the darts that are kept a kind.
pub(crate) fn mark(kinds: &mut Vec<Kind>, surface: &Surface, from: &[MaybeNumber], kind: Kind)
    requires valid { IsOrientedSurface surface.now }
    requires kinds { length kinds.old.items ≡ length surface.now.table }
    requires apart { AreDartsApart (rotations_of surface.now) from.now }
    requires free { (v x : ℕ) → kept_at from.now v ≡ Some x → has_kind kinds.old.items kind (edge_of surface.now x) ≡ false }
    ensures { IsMarked (rotations_of surface.now) from.now kind kinds.old.items kinds.new.items (length from.now) }
{
    for node in 0..from.len() {
        if let Some(dart) = from[node].dart() {
            kinds[surface.edge_of(dart).0 as usize] = kind;
        }
    }
}

/// A dart of the first leftover edge, or the first dart where no edge is left over.
pub(crate) fn leftover_dart(surface: &Surface, kinds: &[Kind]) -> DartName
    requires valid { IsOrientedSurface surface.now }
    requires kinds { length kinds.now ≡ length surface.now.table }
    requires some { 0 < darts_of surface.now }
    ensures within { result.0 < darts_of surface.now }
    ensures left { (d : ℕ) → d < darts_of surface.now → has_kind kinds.now Left (edge_of surface.now d) ≡ true
        → has_kind kinds.now Left (edge_of surface.now result.0) ≡ true }
{
    for edge in 0..surface.sides().len() {
        if is_same(kinds[edge as usize], Kind::Left) {
            return surface.dart_of(EdgeName(edge));
        }
    }
    DartName(0)
}

/// The number of leftover edges.
pub(crate) fn leftover_edges(kinds: &[Kind]) -> u32
    requires { length kinds.now < 2 ^ 32 }
    ensures { result ≡ count_below (has_kind kinds.now Left) (length kinds.now) }
{
    let mut left = 0;
    for edge in 0..kinds.len() {
        if is_same(kinds[edge], Kind::Left) {
            left += 1;
        }
    }
    left
}
