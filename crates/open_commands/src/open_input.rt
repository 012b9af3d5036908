//! Reading the surface with boundary that a command is about.
ghost use Rattle.std.specs.Prelude.{◌≡◌, MatchResult, IfOk, Err};
ghost use Rattle.surf_model.specs.Edges.{IsTableOf};
ghost use Rattle.commands.specs.Checks.{Passes};
ghost use Rattle.commands.specs.Stops.{EndsReading, Stops};
ghost use Rattle.commands.specs.Inputs.{orientable};
ghost use Rattle.commands.specs.declared.stop.Stop.{Stop};
ghost use Rattle.free_forms.specs.OpenSurfaces.{IsOpenSurface};
ghost use Rattle.open_commands.specs.OpenInput.{as_open_surface, open_surface, open_surface_in};

use crate::refusal::refused_for;
use commands::{Stop, Text, read_mesh};
use free_forms::check_open;
use orientation::{OrientFault, orient};
use std::alloc::Global;
use surf_io::Shelf;
use surf_model::{Faces, Sides};

/// The surface with boundary in the file `name`, and the table of its sides. Where the mesh is no orientable open surface, the first
/// condition of one that fails stops the command.
pub fn read_open_surface<S: Shelf>(
    alloc: Global,
    shelf: &mut S,
    name: &str,
) -> Result<(Faces, Sides), Stop>
    ensures reads { EndsReading S.held S.faults shelf.old shelf.new (λ files. MatchResult result
        (λ surface. Passes (open_surface_in files name.now) surface.0) (Stops (open_surface_in files name.now))) result }
    ensures table { IfOk result (λ surface. IsTableOf surface.0 surface.1) }
    ensures surface { IfOk result (λ surface. IsOpenSurface surface.0) }
{
    let faces = read_mesh(alloc, shelf, name)?;
    open_surface_of(alloc, faces)
}

/// A mesh that is an orientable open surface, and the table of its sides.
fn open_surface_of(alloc: Global, faces: Faces) -> Result<(Faces, Sides), Stop>
    ensures mesh { IfOk result (λ surface. surface.0 ≡ faces) }
    ensures table { IfOk result (λ surface. IsTableOf surface.0 surface.1) }
    ensures surface { IfOk result (λ surface. IsOpenSurface surface.0) }
    ensures end { MatchResult result (λ _. Passes (as_open_surface faces) faces) (Stops (as_open_surface faces)) }
    ensures no_fault { result ≡ Err Stop.ReadFault → ⊥ }
{
    let sides = Sides::build(alloc, &faces)?;
    check_surface(alloc, &faces, &sides)?;
    check_orientable(alloc, &faces, &sides)?;
    Ok((faces, sides))
}

/// Checks that the mesh with this table is an open surface.
pub fn check_surface(alloc: Global, faces: &Faces, sides: &Sides) -> Result<(), Stop>
    requires { IsTableOf faces.now sides.now }
    ensures end { MatchResult result (λ _. Passes (open_surface faces.now) faces.now) (Stops (open_surface faces.now)) }
    ensures no_fault { result ≡ Err Stop.ReadFault → ⊥ }
{
    match check_open(alloc, faces, sides) {
        Ok(()) => Ok(()),
        Err(fault) => Err(refused_for(fault)),
    }
}

/// Checks that an open surface is orientable.
fn check_orientable(alloc: Global, faces: &Faces, sides: &Sides) -> Result<(), Stop>
    requires table { IsTableOf faces.now sides.now }
    requires surface { IsOpenSurface faces.now }
    ensures end { MatchResult result (λ _. Passes (orientable faces.now) faces.now) (Stops (orientable faces.now)) }
    ensures no_fault { result ≡ Err Stop.ReadFault → ⊥ }
{
    match orient(alloc, faces, sides) {
        Ok(_signs) => Ok(()),
        Err(OrientFault::NotOrientable { chain }) => Err(Stop::Refused(Text::OddChain(chain))),
        Err(OrientFault::OutOfMemory) => Err(Stop::OutOfMemory),
    }
}
