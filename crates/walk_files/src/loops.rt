//! Comparing the closed walks of a file with the mesh.
ghost use Rattle.std.specs.Prelude.{◌≡◌, ◌↔◌, IsOk};
ghost use Rattle.std.specs.Result.{result_err};
ghost use Rattle.surf_model.specs.FaceLists.{FaceList};
ghost use Rattle.surf_model.specs.Edges.{IsTableOf};
ghost use Rattle.walk_files.specs.ClosedPairs.{IsClosedPair, loops_fault, open_fault};

use crate::entries::{EntryFault, check_walks};
use crate::walk_list::WalkList;
use surf_model::{Sides, Walk};

/// Why a list of walks is no pair of closed walks of a mesh.
///
/// Walks are counted from 1, as in the file, and places of a walk from 0.
#[derive(Clone, Copy, Debug, PartialEq, Eq)]
pub enum LoopFault {
    /// The number of walks is not 2.
    NotTwo { count: u64 },
    /// The entry at that place is no vertex that a face names.
    NoVertex { walk: u32, place: u32 },
    /// The entry at that place and the one after it form no edge.
    NoEdge { walk: u32, place: u32 },
    /// The walk does not end where it starts.
    NotClosed { walk: u32 },
}

/// Whether these are two closed walks of the mesh with this table; or the first thing that is wrong, all entries being
/// looked at before any edge, and all edges before any end. It takes no memory.
pub fn check_loops(sides: &Sides, walks: &WalkList) -> Result<(), LoopFault>
    ensures loops { (mesh : FaceList) → IsTableOf mesh sides.now → (IsOk result ↔ IsClosedPair mesh walks.now.walks) }
    ensures fault { (mesh : FaceList) → IsTableOf mesh sides.now → result_err result ≡ loops_fault mesh walks.now.walks }
{
    let count = walks.len();
    if count != 2 {
        return Err(LoopFault::NotTwo { count });
    }
    check_walks(sides, walks)?;
    check_closed(walks.at(0), walks.at(1))
}

impl From<EntryFault> for LoopFault {
    ghost use Rattle.walk_files.specs.ClosedPairs.{of_entry};

    ghost from_gives = { λ entry fault. fault ≡ of_entry entry };

    fn from(fault: EntryFault) -> LoopFault {
        match fault {
            EntryFault::NoVertex { walk, place } => LoopFault::NoVertex { walk, place },
            EntryFault::NoEdge { walk, place } => LoopFault::NoEdge { walk, place },
        }
    }
}

/// Compares the end of each walk with its start.
fn check_closed(first: &Walk, second: &Walk) -> Result<(), LoopFault>
    ensures { result_err result ≡ open_fault first.now second.now }
{
    let (first_end, second_end) = (first.darts(), second.darts());
    if first.at(first_end) != first.at(0) {
        return Err(LoopFault::NotClosed { walk: 1 });
    }
    if second.at(second_end) != second.at(0) {
        return Err(LoopFault::NotClosed { walk: 2 });
    }
    Ok(())
}
