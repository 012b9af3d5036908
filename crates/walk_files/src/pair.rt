//! Comparing the walks of a file with the mesh.
ghost use Rattle.std.specs.Prelude.{◌≡◌, ◌↔◌, IsOk};
ghost use Rattle.std.specs.Result.{result_err};
ghost use Rattle.surf_model.specs.FaceLists.{FaceList};
ghost use Rattle.surf_model.specs.Edges.{IsTableOf};
ghost use Rattle.walk_files.specs.Pairs.{IsPair, pair_fault, ends_fault};

use crate::entries::{EntryFault, check_walks};
use crate::walk_list::WalkList;
use surf_model::{Sides, Walk};

/// Why a list of walks is no pair of walks of a mesh with common ends.
///
/// Walks are counted from 1, as in the file, and places of a walk from 0.
#[derive(Clone, Copy, Debug, PartialEq, Eq)]
pub enum PairFault {
    /// The number of walks is not 2.
    NotTwo { count: u64 },
    /// The entry at that place is no vertex that a face names.
    NoVertex { walk: u32, place: u32 },
    /// The entry at that place and the one after it form no edge.
    NoEdge { walk: u32, place: u32 },
    /// The walks have different starts, or else different ends.
    EndsDiffer { at_start: bool },
}

/// Whether these are two walks of the mesh with this table, with common ends; or the first thing
/// that is wrong, all entries being looked at before any edge. It takes no memory.
pub fn check_pair(sides: &Sides, walks: &WalkList) -> Result<(), PairFault>
    ensures pair { (mesh : FaceList) → IsTableOf mesh sides.now → (IsOk result ↔ IsPair mesh walks.now.walks) }
    ensures fault { (mesh : FaceList) → IsTableOf mesh sides.now → result_err result ≡ pair_fault mesh walks.now.walks }
{
    let count = walks.len();
    if count != 2 {
        return Err(PairFault::NotTwo { count });
    }
    check_walks(sides, walks)?;
    check_ends(walks.at(0), walks.at(1))
}

impl From<EntryFault> for PairFault {
    ghost use Rattle.walk_files.specs.Pairs.{of_entry};

    ghost from_gives = { λ entry fault. fault ≡ of_entry entry };

    fn from(fault: EntryFault) -> PairFault {
        match fault {
            EntryFault::NoVertex { walk, place } => PairFault::NoVertex { walk, place },
            EntryFault::NoEdge { walk, place } => PairFault::NoEdge { walk, place },
        }
    }
}

/// Compares the starts, and then the ends.
fn check_ends(first: &Walk, second: &Walk) -> Result<(), PairFault>
    ensures { result_err result ≡ ends_fault first.now second.now }
{
    let (first_end, second_end) = (first.darts(), second.darts());
    if first.at(0) != second.at(0) {
        return Err(PairFault::EndsDiffer { at_start: true });
    }
    if first.at(first_end) != second.at(second_end) {
        return Err(PairFault::EndsDiffer { at_start: false });
    }
    Ok(())
}
