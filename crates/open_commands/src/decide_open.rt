//! The command `decide-open`: whether two walks of a surface with boundary are homotopic.
ghost use Rattle.std.specs.Prelude.{if◌then◌else◌};
ghost use Rattle.surf_model.specs.declared.decisions.Answer.TheVariants.{Homotopic, Different};
ghost use Rattle.commands.specs.Decisions.{decision_answer};
ghost use Rattle.commands.specs.Replies.{IsReplyTo, Runs};
ghost use Rattle.open_commands.specs.DecideOpen as of_decide_open;

use crate::open_pair::read_open_pair;
use commands::{Line, Phrase, Reply, Stop, Text};
use free_forms::same_class;
use std::alloc::Global;
use surf_io::Shelf;

/// Whether the two walks in the file `walks` are homotopic on the open surface in the file `mesh`.
pub fn decide_open<S: Shelf>(
    alloc: Global,
    shelf: &mut S,
    mesh: &str,
    walks: &str,
) -> Result<Reply, Stop>
    ensures { Runs S.held S.faults shelf.old shelf.new (λ files. of_decide_open.decide_open files mesh.now walks.now) result }
{
    let pair = read_open_pair(alloc, shelf, mesh, walks)?;
    let same = same_class(alloc, &pair.surface, pair.walks.at(0), pair.walks.at(1))?;
    Ok(reply_on(same))
}

/// The reply that a decision is.
fn reply_on(same: bool) -> Reply
    ensures { IsReplyTo (decision_answer (if same then Homotopic else Different)) result }
{
    if same {
        Reply::Yes(Text::Line(Line::of(Phrase::Text("homotopic"), &[])))
    } else {
        different()
    }
}

/// The reply that walks are not homotopic.
pub(crate) fn different() -> Reply
    ensures { IsReplyTo (decision_answer Different) result }
{
    Reply::No(Text::Line(Line::of(Phrase::Text("different"), &[])))
}
