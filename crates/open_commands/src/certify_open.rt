//! The command `certify-open`: a list of moves from the one walk of a surface with boundary to the other.
ghost use Rattle.std.specs.Prelude.{◌≤◌, ℕ, List, IfOk, IfSome, IfNone};
ghost use Rattle.surf_model.specs.FaceLists.{FaceList, IsFaceList, HasFileSize, total_sides};
ghost use Rattle.surf_model.specs.Walks.{IsWalk};
ghost use Rattle.surf_model.specs.declared.decisions.Answer.TheVariants.{Homotopic, Different};
ghost use Rattle.free_forms.specs.PeakedLists.{LeadsAtPeak, IsListWithin};
ghost use Rattle.free_forms.specs.declared.limits.TheConstants.{MOST_OPEN_SIDES, MOST_OPEN_STEPS};
ghost use Rattle.commands.specs.Replies.{IsReplyTo, Runs};
ghost use Rattle.open_commands.specs.CertifyOpen.{list_answer, IsShortReply};
ghost use Rattle.open_commands.specs.CertifyOpen as of_certify_open;

use crate::decide_open::different;
use crate::open_pair::read_open_pair;
use commands::{Certificate, Reply, Stop, Text};
use free_forms::lift_open;
use std::alloc::Global;
use surf_io::Shelf;
use surf_model::MoveList;

/// The most bytes of what `certify-open` prints: a line for the decision, one for the head, and 29 bytes for each move at most.
pub const MOST_OPEN_BYTES: u64 = 243_269_664;

/// A list of moves that leads from the first to the second of the two walks in the file `walks`, on the open surface in the file `mesh`;
/// `different` alone where none does.
pub fn certify_open<S: Shelf>(
    alloc: Global,
    shelf: &mut S,
    mesh: &str,
    walks: &str,
) -> Result<Reply, Stop>
    ensures runs { Runs S.held S.faults shelf.old shelf.new (λ files. of_certify_open.certify_open files mesh.now walks.now) result }
    ensures short { IfOk result IsShortReply }
{
    let pair = read_open_pair(alloc, shelf, mesh, walks)?;
    // The proof reads what holds of every open mesh.
    let _ = pair.surface.faces().len();
    let found = lift_open(alloc, &pair.surface, pair.walks.at(0), pair.walks.at(1))?;
    Ok(reply_with(found))
}

/// The reply with a list of moves, or that there is none.
fn reply_with(found: Option<MoveList>) -> Reply
    ensures some { IfSome found (λ list. (mesh : FaceList) (first second : List ℕ) → LeadsAtPeak mesh first list second
        → IsListWithin MOST_OPEN_STEPS list → IsReplyTo (list_answer mesh first second Homotopic) result) }
    ensures none { (mesh : FaceList) (first second : List ℕ) → IfNone found (IsReplyTo (list_answer mesh first second Different) result) }
    ensures short { (mesh : FaceList) (first second : List ℕ) → IsFaceList mesh → HasFileSize mesh → total_sides mesh ≤ MOST_OPEN_SIDES
        → IsWalk mesh first → IfSome found (λ list. LeadsAtPeak mesh first list second × IsListWithin MOST_OPEN_STEPS list)
        → IsShortReply result }
{
    match found {
        Some(list) => Reply::Yes(Text::Certificate(Certificate::Moves(list))),
        None => different(),
    }
}
