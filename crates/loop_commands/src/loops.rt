//! The command `loops`: whether two closed walks of a surface are freely homotopic.
ghost use Rattle.std.specs.Prelude.{◌≡◌, ◌↔◌, IfOk};
ghost use Rattle.closed_walks.specs.FreeHomotopy.{IsClosedWalk, FreelyHomotopic};
ghost use Rattle.closed_surfaces.specs.SignedSurfaces.{IsSigned};
ghost use Rattle.commands.specs.Replies.{IsReplyTo, Runs};
ghost use Rattle.loop_commands.specs.Loops as of_loops;
ghost use Rattle.loop_commands.specs.Loops.{free_answer, free_line, free_phrase};

use crate::input::read_loops;
use closed_surfaces::SignedMesh;
use commands::{Line, Phrase, Reply, Stop, Text};
use component_deciding::WordFinder;
use free_loops::FreeAnswer;
use std::alloc::{AllocError, Global};
use surf_io::Shelf;
use surf_model::Walk;
use surface_commands::read_surface;

/// Whether the two closed walks in the file `walks` are freely homotopic on the surface in the file `mesh`. The walks are read
/// only where the surface is in order.
pub fn loops<S: Shelf>(alloc: Global, shelf: &mut S, mesh: &str, walks: &str) -> Result<Reply, Stop>
    ensures { Runs S.held S.faults shelf.old shelf.new (λ files. of_loops.loops files mesh.now walks.now) result }
{
    let surface = read_surface(alloc, shelf, mesh)?;
    let pair = read_loops(alloc, shelf, walks, &surface.sides)?;
    let decision = decide_on(alloc, surface, pair.at(0), pair.at(1))?;
    Ok(reply_on(decision))
}

/// Whether two closed walks of a surface are freely homotopic. Only the components of the two are labelled.
fn decide_on(
    alloc: Global,
    surface: SignedMesh,
    first: &Walk,
    second: &Walk,
) -> Result<FreeAnswer, AllocError>
    requires signed { IsSigned surface }
    requires first { IsClosedWalk surface.faces first.now }
    requires second { IsClosedWalk surface.faces second.now }
    ensures { IfOk result (λ answer. (answer ≡ FreeAnswer.Freely) ↔ FreelyHomotopic surface.faces first.now second.now) }
{
    // No word is asked for, so nothing is kept for many darts.
    let mut finder = WordFinder::of(alloc, surface, 0)?;
    let answer = finder.decide_free(first, second);
    // By a call, which is proved once, and not here again.
    drop(finder);
    answer
}

/// The reply that an answer is.
fn reply_on(decision: FreeAnswer) -> Reply
    ensures { IsReplyTo (free_answer decision) result }
{
    let text = Text::Line(line_of(decision));
    match decision {
        FreeAnswer::Freely => Reply::Yes(text),
        FreeAnswer::NotFreely => Reply::No(text),
    }
}

/// The line of an answer.
fn line_of(decision: FreeAnswer) -> Line
    ensures { result ≡ free_line decision }
{
    Line::of(Phrase::Text(phrase_of(decision)), &[])
}

/// The phrase of an answer.
fn phrase_of(decision: FreeAnswer) -> &'static str
    ensures { result.now ≡ free_phrase decision }
{
    match decision {
        FreeAnswer::Freely => "freely homotopic",
        FreeAnswer::NotFreely => "not freely homotopic",
    }
}
