//! Whether the walks that the command is about come in pairs.
ghost use Rattle.std.specs.Prelude.{◌≡◌, Err, MatchResult};
ghost use Rattle.surf_model.specs.FaceLists.{FaceList};
ghost use Rattle.surf_model.specs.Edges.{IsTableOf};
ghost use Rattle.walk_files.specs.PairLists.{ArePairs};
ghost use Rattle.commands.specs.Stops.{Stops, Tells};
ghost use Rattle.pair_commands.specs.PairInput.{come_in_pairs, pairs_line, ends_line};

use commands::{Phrase, Stop, refused, refused_at_place};
use surf_model::Sides;
use walk_files::{PairsFault, WalkList, check_pairs};

/// Looks whether walks come in pairs of walks of the mesh with this table.
pub(crate) fn check_list(sides: &Sides, walks: &WalkList) -> Result<(), Stop>
    ensures ends { (mesh : FaceList) → IsTableOf mesh sides.now
        → MatchResult result (λ _. ArePairs mesh walks.now) (Stops (come_in_pairs mesh walks.now)) }
    ensures no_fault { result ≡ Err Stop.ReadFault → ⊥ }
{
    match check_pairs(sides, walks) {
        Ok(()) => Ok(()),
        Err(fault) => Err(stop_for(walks.version(), fault)),
    }
}

/// What stops the command, where the walks of a text of that version do not come in pairs.
fn stop_for(version: u32, fault: PairsFault) -> Stop
    ensures { Tells (pairs_line version fault) result }
{
    match fault {
        PairsFault::NotPairs { count } => {
            refused(&[Phrase::Text("walks count"), Phrase::Number(count)])
        }
        PairsFault::NoVertex { walk, place } => refused_at_place(walk, place, "vertex"),
        PairsFault::NoEdge { walk, place } => refused_at_place(walk, place, "edge"),
        PairsFault::EndsDiffer {
            pair,
            at_start: true,
        } => stop_for_ends(version, pair, "start"),
        PairsFault::EndsDiffer {
            pair,
            at_start: false,
        } => stop_for_ends(version, pair, "end"),
    }
}

/// What stops the command, where two ends of a pair differ. The one pair of version 1 is told without a number.
fn stop_for_ends(version: u32, pair: u32, which: &'static str) -> Stop
    ensures { Tells (ends_line version pair which.now) result }
{
    if version == 2 {
        return refused(&[
            Phrase::Text("pair"),
            Phrase::Number(pair as u64),
            Phrase::Text(which),
        ]);
    }
    refused(&[Phrase::Text("walks"), Phrase::Text(which)])
}
