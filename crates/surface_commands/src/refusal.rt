//! Why a mesh is refused that is to be an orientable closed surface.
ghost use Rattle.commands.specs.Stops.{Tells};
ghost use Rattle.surface_commands.specs.SurfaceRefusals.{surface_line};

use commands::{Phrase, Stop, refused};
use manifold_check::SurfaceFault;

/// What stops a command whose mesh is no closed manifold.
pub fn stop_for(fault: SurfaceFault) -> Stop
    ensures { Tells (surface_line fault) result }
{
    match fault {
        SurfaceFault::NoFace => refused(&[Phrase::Text("no face")]),
        SurfaceFault::EdgeSides { low, high, sides } => refused(&[
            Phrase::Text("edge"),
            Phrase::Number(low.0 as u64),
            Phrase::Number(high.0 as u64),
            Phrase::Text("sides"),
            Phrase::Number(sides as u64),
        ]),
        SurfaceFault::Pinched { vertex } => refused(&[
            Phrase::Text("vertex"),
            Phrase::Number(vertex.0 as u64),
            Phrase::Text("pinched"),
        ]),
        SurfaceFault::OutOfMemory => Stop::OutOfMemory,
    }
}
