//! Reading a surface with boundary, and its double.
ghost use Rattle.std.specs.Prelude.{◌≡◌, Err};
ghost use Rattle.commands.specs.Stops.{Ends, EndsReading, Tells};
ghost use Rattle.surf_model.specs.Edges.{IsTableOf};
ghost use Rattle.double_commands.specs.MeshDouble.{double_in, double_line, surface_doubled};

use commands::{Phrase, Stop, read_mesh, refused};
use doubling::{DoubleFault, double};
use open_commands::check_surface;
use std::alloc::Global;
use surf_io::Shelf;
use surf_model::{Faces, Sides};

/// The double of the surface with boundary in the file `name`.
pub(crate) fn read_double<S: Shelf>(alloc: Global, shelf: &mut S, name: &str) -> Result<Faces, Stop>
    ensures { EndsReading S.held S.faults shelf.old shelf.new (λ files. Ends (double_in files name.now) result) result }
{
    let faces = read_mesh(alloc, shelf, name)?;
    double_surface(alloc, &faces)
}

/// The double of a mesh that is a surface with boundary.
fn double_surface(alloc: Global, faces: &Faces) -> Result<Faces, Stop>
    ensures end { Ends (surface_doubled faces.now) result }
    ensures no_fault { result ≡ Err Stop.ReadFault → ⊥ }
{
    let sides = Sides::build(alloc, faces)?;
    double_checked(alloc, faces, &sides)
}

/// The double of the mesh with this table, once it is found to be a surface with boundary.
fn double_checked(alloc: Global, faces: &Faces, sides: &Sides) -> Result<Faces, Stop>
    requires { IsTableOf faces.now sides.now }
    ensures end { Ends (surface_doubled faces.now) result }
    ensures no_fault { result ≡ Err Stop.ReadFault → ⊥ }
{
    check_surface(alloc, faces, sides)?;
    match double(alloc, faces, sides) {
        Ok(double) => {
            // The proof reads what holds of every face list.
            let _ = double.len();
            Ok(double)
        }
        Err(fault) => Err(refused_for(fault)),
    }
}

/// What stops the program where there is no double.
fn refused_for(fault: DoubleFault) -> Stop
    ensures { Tells (double_line fault) result }
{
    match fault {
        DoubleFault::TooManyVertices => refused(&[Phrase::Text("double vertices")]),
        DoubleFault::TooManySides => refused(&[Phrase::Text("double sides")]),
        DoubleFault::OutOfMemory => Stop::OutOfMemory,
    }
}
