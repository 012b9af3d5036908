//! Comparing many pairs of walks with the mesh.
ghost use Rattle.std.specs.Prelude.{◌≡◌, ◌↔◌, ◌<◌, length, IsOk};
ghost use Rattle.std.specs.Result.{result_err};
ghost use Rattle.surf_model.specs.FaceLists.{FaceList};
ghost use Rattle.surf_model.specs.Edges.{IsTableOf};
ghost use Rattle.walk_files.specs.PairLists.{are_paired, ArePairs, pairs_fault, ends_fault};

use crate::entries::{EntryFault, check_walks};
use crate::walk_list::WalkList;
use surf_model::{Sides, Walk};

/// Why the walks of a text do not come in pairs of walks of a mesh with common ends.
///
/// Walks and pairs are counted from 1, as in the file, and places of a walk from 0.
#[derive(Clone, Copy, Debug, PartialEq, Eq)]
pub enum PairsFault {
    /// The number of walks is not 2; for a text of version 2: is 0 or odd.
    NotPairs { count: u64 },
    /// The entry at that place is no vertex that a face names.
    NoVertex { walk: u32, place: u32 },
    /// The entry at that place and the one after it form no edge.
    NoEdge { walk: u32, place: u32 },
    /// The walks of that pair have different starts, or else different ends.
    EndsDiffer { pair: u32, at_start: bool },
}

/// Whether these are walks of the mesh with this table that form one pair, or one or more in a text of version 2, each with
/// common ends; or the first thing that is wrong, all entries being looked at before any edge, and all edges before any
/// end. It takes no memory.
pub fn check_pairs(sides: &Sides, walks: &WalkList) -> Result<(), PairsFault>
    ensures pairs { (mesh : FaceList) → IsTableOf mesh sides.now → (IsOk result ↔ ArePairs mesh walks.now) }
    ensures fault { (mesh : FaceList) → IsTableOf mesh sides.now → result_err result ≡ pairs_fault mesh walks.now }
{
    let count = walks.len();
    if !are_paired(walks.version(), count) {
        return Err(PairsFault::NotPairs { count });
    }
    check_walks(sides, walks)?;
    for k in 0..count / 2 {
        check_ends(k as u32 + 1, walks.at(2 * k), walks.at(2 * k + 1))?;
    }
    Ok(())
}

/// Whether so many walks of a text of that version are pairs.
fn are_paired(version: u32, count: u64) -> bool
    ensures { result ≡ are_paired version count }
{
    if version == 2 {
        count > 0 && count % 2 == 0
    } else {
        count == 2
    }
}

impl From<EntryFault> for PairsFault {
    ghost use Rattle.walk_files.specs.PairLists.{of_entry};

    ghost from_gives = { λ entry fault. fault ≡ of_entry entry };

    fn from(fault: EntryFault) -> PairsFault {
        match fault {
            EntryFault::NoVertex { walk, place } => PairsFault::NoVertex { walk, place },
            EntryFault::NoEdge { walk, place } => PairsFault::NoEdge { walk, place },
        }
    }
}

/// Compares the starts, and then the ends, of the pair with that number.
fn check_ends(pair: u32, first: &Walk, second: &Walk) -> Result<(), PairsFault>
    ensures { result_err result ≡ ends_fault pair (record { first = first.now; second = second.now }) }
{
    let (first_end, second_end) = (first.darts(), second.darts());
    if first.at(0) != second.at(0) {
        return Err(PairsFault::EndsDiffer {
            pair,
            at_start: true,
        });
    }
    if first.at(first_end) != second.at(second_end) {
        return Err(PairsFault::EndsDiffer {
            pair,
            at_start: false,
        });
    }
    Ok(())
}
