//! The two vertices of a side, the lower first.
ghost use Rattle.std.specs.Prelude.{◌≡◌, ◌<◌, ◌≤◌, true, length, min, max, slice_index};
ghost use Rattle.surf_model.specs.FaceLists.{next_corner};
ghost use Rattle.surf_model.specs.Vertices.{numbers};
ghost use Rattle.surf_model.specs.declared.limits.TheConstants.{MOST_SIDES};

use crate::edge_list::EdgeEnds;
use crate::faces::corner_after;
use crate::names::VertexName;

/// Two vertices, the lower first.
pub(crate) fn in_order(u: VertexName, v: VertexName) -> EdgeEnds
    ensures low { result.low.0 ≡ min u.0 v.0 }
    ensures high { result.high.0 ≡ max u.0 v.0 }
{
    if u <= v {
        EdgeEnds { low: u, high: v }
    } else {
        EdgeEnds { low: v, high: u }
    }
}

/// The two vertices of the side that starts at corner `at` of a ring of corners.
pub(crate) fn ends_of(ring: &[VertexName], at: usize) -> EdgeEnds
    requires corner { at < length ring.now }
    requires few { length ring.now ≤ MOST_SIDES }
    ensures low { result.low.0
        ≡ min (slice_index (numbers ring.now) at) (slice_index (numbers ring.now) (next_corner true (length ring.now) at)) }
    ensures high { result.high.0
        ≡ max (slice_index (numbers ring.now) at) (slice_index (numbers ring.now) (next_corner true (length ring.now) at)) }
{
    let next = corner_after(true, ring.len() as u32, at as u32);
    in_order(ring[at], ring[next as usize])
}
