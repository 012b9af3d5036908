//! Why a mesh is refused as an open surface.
ghost use Rattle.commands.specs.Stops.{Tells};
ghost use Rattle.open_commands.specs.OpenInput.{open_line};

use commands::{Phrase, Stop, refused};
use free_forms::OpenFault;

/// What stops a command, for each condition of an open surface that fails.
pub fn refused_for(fault: OpenFault) -> Stop
    ensures { Tells (open_line fault) result }
{
    match fault {
        OpenFault::NoFace => refused(&[Phrase::Text("no face")]),
        OpenFault::EdgeSides { low, high, sides } => refused(&[
            Phrase::Text("edge"),
            Phrase::Number(low.0 as u64),
            Phrase::Number(high.0 as u64),
            Phrase::Text("sides"),
            Phrase::Number(sides as u64),
        ]),
        OpenFault::NoBoundary => refused(&[Phrase::Text("no boundary")]),
        OpenFault::Pinched { vertex } => refused(&[
            Phrase::Text("vertex"),
            Phrase::Number(vertex.0 as u64),
            Phrase::Text("pinched"),
        ]),
        OpenFault::Apart { vertex, other } => refused(&[
            Phrase::Text("vertices"),
            Phrase::Number(vertex.0 as u64),
            Phrase::Number(other.0 as u64),
            Phrase::Text("apart"),
        ]),
        OpenFault::OutOfMemory => Stop::OutOfMemory,
    }
}
