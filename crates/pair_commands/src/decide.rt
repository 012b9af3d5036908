//! The command `decide`: whether two walks of a surface are homotopic, for each of several pairs.
ghost use Rattle.std.specs.Prelude.{◌≡◌, ◌↔◌, All, IsTrue};
ghost use Rattle.commands.specs.Replies.{IsReplyTo, Runs};
ghost use Rattle.pair_commands.specs.Decide as of_decide;
ghost use Rattle.pair_commands.specs.Decide.{decisions_answer};

use crate::deciding::decide_walks;
use commands::{Reply, Stop, Text, read_list};
use std::alloc::Global;
use surf_io::Shelf;
use surface_commands::read_surface;
use walk_translate::Answer;

/// For each pair of walks in the file `walks` whether they are homotopic on the surface in the file `mesh`. The walks are read only
/// where the surface is in order.
pub fn decide<S: Shelf>(
    alloc: Global,
    shelf: &mut S,
    mesh: &str,
    walks: &str,
) -> Result<Reply, Stop>
    ensures { Runs S.held S.faults shelf.old shelf.new (λ files. of_decide.decide files mesh.now walks.now) result }
{
    let surface = read_surface(alloc, shelf, mesh)?;
    let walks = read_list(alloc, shelf, walks)?;
    let decisions = decide_walks(alloc, surface, &walks)?;
    Ok(reply_on(decisions))
}

/// The reply that decisions are: yes where the walks of each pair are homotopic.
fn reply_on(decisions: Vec<Answer>) -> Reply
    ensures { IsReplyTo (decisions_answer decisions.items) result }
{
    if are_all_homotopic(&decisions) {
        Reply::Yes(Text::Decisions(decisions))
    } else {
        Reply::No(Text::Decisions(decisions))
    }
}

/// Whether each decision is that walks are homotopic.
fn are_all_homotopic(decisions: &[Answer]) -> bool
    ensures { IsTrue result ↔ All (λ decision. decision ≡ Answer.Homotopic) decisions.now }
{
    decisions
        .iter()
        .all(|decision| *decision == Answer::Homotopic)
}
