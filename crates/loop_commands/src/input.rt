//! Reading the closed walks that a command is about.
ghost use Rattle.std.specs.Prelude.{◌≡◌, MatchResult, IfOk};
ghost use Rattle.surf_model.specs.FaceLists.{FaceList};
ghost use Rattle.surf_model.specs.Edges.{IsTableOf};
ghost use Rattle.walk_files.specs.ClosedPairs.{IsClosedPair};
ghost use Rattle.commands.specs.Checks.{Passes};
ghost use Rattle.commands.specs.Stops.{EndsReading, Stops, Tells};
ghost use Rattle.loop_commands.specs.Loops.{loops_in, loops_line};

use commands::{Phrase, Stop, read_list, refused, refused_at_place};
use std::alloc::Global;
use surf_io::Shelf;
use surf_model::Sides;
use walk_files::{LoopFault, WalkList, check_loops};

/// Reads the two closed walks of the mesh with this table.
pub fn read_loops<S: Shelf>(
    alloc: Global,
    shelf: &mut S,
    name: &str,
    sides: &Sides,
) -> Result<WalkList, Stop>
    ensures reads { EndsReading S.held S.faults shelf.old shelf.new
        (λ files. (mesh : FaceList) → IsTableOf mesh sides.now
        → MatchResult result (λ list. Passes (loops_in files name.now mesh) list.walks) (Stops (loops_in files name.now mesh))) result }
    ensures loops { IfOk result (λ list. (mesh : FaceList) → IsTableOf mesh sides.now → IsClosedPair mesh list.walks) }
{
    let walks = read_list(alloc, shelf, name)?;
    match check_loops(sides, &walks) {
        Ok(()) => Ok(walks),
        Err(fault) => Err(stop_for(fault)),
    }
}

/// What stops the command, where walks are not two closed walks of the mesh.
fn stop_for(fault: LoopFault) -> Stop
    ensures { Tells (loops_line fault) result }
{
    match fault {
        LoopFault::NotTwo { count } => {
            refused(&[Phrase::Text("walks count"), Phrase::Number(count)])
        }
        LoopFault::NoVertex { walk, place } => refused_at_place(walk, place, "vertex"),
        LoopFault::NoEdge { walk, place } => refused_at_place(walk, place, "edge"),
        LoopFault::NotClosed { walk } => refused(&[
            Phrase::Text("walk"),
            Phrase::Number(walk as u64),
            Phrase::Text("open"),
        ]),
    }
}
