//! Comparing walks, any number of them, with the mesh.
ghost use Rattle.std.specs.Prelude.{◌≡◌, ◌<◌, ◌^◌, length};
ghost use Rattle.std.specs.Result.{result_err};
ghost use Rattle.surf_model.specs.FaceLists.{FaceList};
ghost use Rattle.surf_model.specs.Edges.{IsTableOf};
ghost use Rattle.walk_files.specs.Entries.{vertex_fault, edge_fault, walks_fault};

use crate::walk_list::WalkList;
use surf_model::{Sides, Walk};

/// Why an entry of a walk is none of a walk of a mesh. Walks are counted from 1, and places from 0.
#[derive(Clone, Copy, Debug, PartialEq, Eq)]
pub(crate) enum EntryFault {
    /// The entry at that place is no vertex that a face names.
    NoVertex { walk: u32, place: u32 },
    /// The entry at that place and the one after it form no edge.
    NoEdge { walk: u32, place: u32 },
}

/// Whether these are walks of the mesh with this table, or the first thing that is wrong: the entries of all walks are
/// looked at, and then the darts of all.
pub(crate) fn check_walks(sides: &Sides, walks: &WalkList) -> Result<(), EntryFault>
    requires { length walks.now.walks < 2 ^ 32 }
    ensures { (mesh : FaceList) → IsTableOf mesh sides.now → result_err result ≡ walks_fault mesh walks.now.walks }
{
    for k in 0..walks.len() {
        check_vertices(sides, k as u32 + 1, walks.at(k))?;
    }
    for k in 0..walks.len() {
        check_edges(sides, k as u32 + 1, walks.at(k))?;
    }
    Ok(())
}

/// Looks at the entries of the walk, which is number `number` of its file.
fn check_vertices(sides: &Sides, number: u32, walk: &Walk) -> Result<(), EntryFault>
    ensures { (mesh : FaceList) → IsTableOf mesh sides.now → result_err result ≡ vertex_fault mesh number walk.now }
{
    for place in 0..=walk.darts() {
        if !sides.used(walk.at(place)) {
            return Err(EntryFault::NoVertex {
                walk: number,
                place,
            });
        }
    }
    Ok(())
}

/// Looks at the darts of the walk, which is number `number` of its file.
fn check_edges(sides: &Sides, number: u32, walk: &Walk) -> Result<(), EntryFault>
    ensures { (mesh : FaceList) → IsTableOf mesh sides.now → result_err result ≡ edge_fault mesh number walk.now }
{
    for place in 0..walk.darts() {
        if sides.between(walk.at(place), walk.at(place + 1)).is_none() {
            return Err(EntryFault::NoEdge {
                walk: number,
                place,
            });
        }
    }
    Ok(())
}
