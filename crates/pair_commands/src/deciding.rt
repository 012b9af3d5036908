//! Deciding on many pairs of walks of a surface.
ghost use Rattle.std.specs.Prelude.{◌≡◌, ◌≤◌, ◌/◌, length, Err, IfOk, MatchResult};
ghost use Rattle.walk_files.specs.PairLists.{are_paired};
ghost use Rattle.walk_files.specs.declared.limits.TheConstants.{MOST_LINES};
ghost use Rattle.closed_surfaces.specs.SignedSurfaces.{IsSigned};
ghost use Rattle.commands.specs.Stops.{Stops};
ghost use Rattle.component_deciding.specs.Orders.{AreAllPairs};
ghost use Rattle.component_deciding.specs.PairDeciders.{mesh_of_decider};
ghost use Rattle.pair_commands.specs.Decide.{ArePairsDecided};
ghost use Rattle.pair_commands.specs.PairInput.{come_in_pairs};

use crate::pair_input::check_list;
use closed_surfaces::SignedMesh;
use commands::Stop;
use component_deciding::{PairDecider, Placed};
use std::alloc::{AllocError, Global};
use walk_files::WalkList;
use walk_translate::Answer;

/// The decisions on the walks of a surface, pair by pair, or what is first wrong where they do not come in pairs.
pub(crate) fn decide_walks(
    alloc: Global,
    mesh: SignedMesh,
    walks: &WalkList,
) -> Result<Vec<Answer>, Stop>
    requires { IsSigned mesh }
    ensures ends { MatchResult result (λ decisions. ArePairsDecided mesh.faces walks.now decisions.items)
        (Stops (come_in_pairs mesh.faces walks.now)) }
    ensures no_fault { result ≡ Err Stop.ReadFault → ⊥ }
{
    let mut decider = PairDecider::of(alloc, mesh, darts_of(walks))?;
    let decided = decide_all(alloc, &mut decider, walks);
    // By a call, which is proved once, and not here again.
    drop(decider);
    decided
}

/// How many darts the walks have together.
fn darts_of(walks: &WalkList) -> u64 {
    let mut darts: u64 = 0;
    for k in 0..walks.len() {
        darts = darts.saturating_add(u64::from(walks.at(k).darts()));
    }
    darts
}

/// The decisions on the walks of the surface that a decider has, pair by pair, or what is first wrong with the walks. They are looked at
/// for that only where they do not come in pairs, and then they are refused.
fn decide_all(
    alloc: Global,
    decider: &mut PairDecider,
    walks: &WalkList,
) -> Result<Vec<Answer>, Stop>
    ensures ends { MatchResult result (λ decisions. ArePairsDecided (mesh_of_decider decider.old) walks.now decisions.items)
        (Stops (come_in_pairs (mesh_of_decider decider.old) walks.now)) }
    ensures no_fault { result ≡ Err Stop.ReadFault → ⊥ }
{
    if !are_paired(walks) {
        check_list(decider.sides(), walks)?;
    }
    let order = order_of(alloc, decider, walks)?;
    let mut decisions = vec![in alloc; Answer::Different; order.len()]?;
    for at in 0..order.len() {
        let pair = order[at].pair;
        let (first, second) = (2 * pair as u64, 2 * pair as u64 + 1);
        match decider.answer_if_pair(walks.at(first), walks.at(second))? {
            Some(decision) => decisions[pair] = decision,
            None => check_list(decider.sides(), walks)?,
        }
    }
    Ok(decisions)
}

/// Whether the number of walks is one of pairs, for the version of the text.
fn are_paired(walks: &WalkList) -> bool
    ensures { result ≡ are_paired walks.now.version (length walks.now.walks) }
{
    if walks.version() == 2 {
        walks.len() > 0 && walks.len() % 2 == 0
    } else {
        walks.len() == 2
    }
}

/// The order in which the pairs are asked about.
fn order_of(
    alloc: Global,
    decider: &PairDecider,
    walks: &WalkList,
) -> Result<Vec<Placed>, AllocError>
    ensures order { IfOk result (λ order. AreAllPairs (length walks.now.walks / 2) order.items) }
    ensures few { length walks.now.walks ≤ MOST_LINES }
{
    let count = walks.len() / 2;
    let mut starts = Vec::with_capacity(alloc, count as usize)?;
    for pair in 0..count {
        starts.push(walks.at(2 * pair).at(0))?;
    }
    decider.order(alloc, &starts)
}
