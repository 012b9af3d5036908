//! Reading the surface that a command is about.
ghost use Rattle.std.specs.Prelude.{◌≡◌, ◌≤◌, length, MatchResult, IfOk, Err};
ghost use Rattle.surf_model.specs.ComponentParts.{AreParts};
ghost use Rattle.orientation.specs.Classes.{IsLeastKept};
ghost use Rattle.commands.specs.Checks.{Passes};
ghost use Rattle.closed_surfaces.specs.SignedSurfaces.{IsSigned};
ghost use Rattle.commands.specs.Stops.{Ends, EndsReading, Stops};
ghost use Rattle.surface_commands.specs.SurfaceInput.{as_surface, of_few_components, surface_in};
ghost use Rattle.commands.specs.declared.stop.Stop.{Stop};

use crate::refusal::stop_for;
use closed_surfaces::{NoSurface, SignedMesh};
use commands::{Phrase, Stop, Text, read_mesh, refused};
use manifold_check::Parts;
use std::alloc::Global;
use surf_io::Shelf;
use surf_model::Faces;

/// The surface in the file `name`: its mesh, with the table of its edges, and with the signs that keep the least face of each
/// component. Where the mesh is no orientable closed surface, the first condition of one that fails stops the command.
pub fn read_surface<S: Shelf>(alloc: Global, shelf: &mut S, name: &str) -> Result<SignedMesh, Stop>
    ensures reads { EndsReading S.held S.faults shelf.old shelf.new (λ files. MatchResult result
        (λ surface. Passes (surface_in files name.now) surface.faces) (Stops (surface_in files name.now))) result }
    ensures signed { IfOk result IsSigned }
    ensures least_kept { IfOk result (λ surface. IsLeastKept surface.faces surface.signs) }
{
    let faces = read_mesh(alloc, shelf, name)?;
    surface_of(alloc, faces)
}

/// The surface that a mesh is.
pub fn surface_of(alloc: Global, faces: Faces) -> Result<SignedMesh, Stop>
    ensures mesh { IfOk result (λ surface. surface.faces ≡ faces) }
    ensures end { MatchResult result (λ _. Passes (as_surface faces) faces) (Stops (as_surface faces)) }
    ensures signed { IfOk result IsSigned }
    ensures least_kept { IfOk result (λ surface. IsLeastKept surface.faces surface.signs) }
    ensures no_fault { result ≡ Err Stop.ReadFault → ⊥ }
{
    match SignedMesh::of(alloc, faces) {
        Ok(surface) => Ok(surface),
        Err(NoSurface::Fault(fault)) => Err(stop_for(fault)),
        Err(NoSurface::NotOrientable(chain)) => Err(Stop::Refused(Text::OddChain(chain))),
    }
}

/// The components of a surface, of which there are to be `most` at most.
pub fn few_components(alloc: Global, surface: &SignedMesh, most: u32) -> Result<Parts, Stop>
    requires { IsSigned surface.now }
    ensures parts { IfOk result (AreParts surface.now.faces) }
    ensures few { IfOk result (λ parts. length parts.components ≤ most) }
    ensures end { MatchResult result (λ _. Passes (of_few_components most surface.now.faces) surface.now.faces)
        (Stops (of_few_components most surface.now.faces)) }
    ensures no_fault { result ≡ Err Stop.ReadFault → ⊥ }
{
    let parts = Parts::build(alloc, &surface.faces, &surface.sides)?;
    let count = parts.len();
    if count > most {
        return Err(refused(&[
            Phrase::Text("surface components"),
            Phrase::Number(count as u64),
        ]));
    }
    Ok(parts)
}
