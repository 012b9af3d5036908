//! Reading a closed manifold, and its cover.
ghost use Rattle.std.specs.Prelude.{◌≡◌, Err, IfOk, OnOk, MatchResult};
ghost use Rattle.surf_model.specs.Edges.{IsTableOf};
ghost use Rattle.surf_model.specs.Surfaces.{IsClosedManifold};
ghost use Rattle.commands.specs.Checks.{Passes};
ghost use Rattle.commands.specs.Stops.{Ends, EndsReading, Stops, Tells};
ghost use Rattle.surface_commands.specs.SurfaceInput.{closed_alone};
ghost use Rattle.cover_commands.specs.MeshCover.{IsWithWays, cover_in, cover_line, covered, seen, ways_in, ways_of, with_ways};

use commands::{Phrase, Stop, read_mesh, refused};
use doubling::DoubleFault;
use manifold_check::check_closed;
use orientation_cover::{WaysRound, cover, ways_round};
use std::alloc::Global;
use surf_io::Shelf;
use surf_model::{Faces, Sides};
use surface_commands::stop_for;

/// A closed manifold, the table of its sides, and ways round its vertices.
#[derive(Drop)]
pub(crate) struct MeshWithWays {
    pub(crate) faces: Faces,
    pub(crate) sides: Sides,
    pub(crate) ways: WaysRound,
}

/// The closed manifold in the file `name`, and ways round its vertices.
pub(crate) fn read_with_ways<S: Shelf>(
    alloc: Global,
    shelf: &mut S,
    name: &str,
) -> Result<MeshWithWays, Stop>
    ensures reads { EndsReading S.held S.faults shelf.old shelf.new (λ files. MatchResult result
        (λ on. Passes (ways_in files name.now) (seen on)) (Stops (ways_in files name.now))) result }
    ensures ways { IfOk result IsWithWays }
{
    let faces = read_mesh(alloc, shelf, name)?;
    find_with_ways(alloc, faces)
}

/// The cover of the closed manifold in the file `name`.
pub(crate) fn read_cover<S: Shelf>(alloc: Global, shelf: &mut S, name: &str) -> Result<Faces, Stop>
    ensures { EndsReading S.held S.faults shelf.old shelf.new (λ files. Ends (cover_in files name.now) result) result }
{
    let on = read_with_ways(alloc, shelf, name)?;
    let cover = cover_on(alloc, &on);
    // By a call, which is proved once, and not here again.
    drop(on);
    cover
}

/// A mesh with ways round its vertices, once it is found to be a closed manifold.
fn find_with_ways(alloc: Global, faces: Faces) -> Result<MeshWithWays, Stop>
    ensures end { MatchResult result (λ on. Passes (with_ways faces) (seen on)) (Stops (with_ways faces)) }
    ensures ways { IfOk result IsWithWays }
    ensures no_fault { result ≡ Err Stop.ReadFault → ⊥ }
{
    let sides = Sides::build(alloc, &faces)?;
    check_manifold(alloc, &faces, &sides)?;
    let ways = find_ways(alloc, &faces, &sides)?;
    Ok(MeshWithWays { faces, sides, ways })
}

/// Checks that the mesh with this table is a closed manifold.
fn check_manifold(alloc: Global, faces: &Faces, sides: &Sides) -> Result<(), Stop>
    requires { IsTableOf faces.now sides.now }
    ensures closed { OnOk result (IsClosedManifold faces.now) }
    ensures end { MatchResult result (λ _. Passes (closed_alone faces.now) faces.now) (Stops (closed_alone faces.now)) }
    ensures no_fault { result ≡ Err Stop.ReadFault → ⊥ }
{
    match check_closed(alloc, faces, sides) {
        Ok(()) => Ok(()),
        Err(fault) => Err(stop_for(fault)),
    }
}

/// Ways round the vertices of a closed manifold.
fn find_ways(alloc: Global, faces: &Faces, sides: &Sides) -> Result<WaysRound, Stop>
    requires table { IsTableOf faces.now sides.now }
    requires closed { IsClosedManifold faces.now }
    ensures end { Ends (ways_of faces.now) result }
    ensures no_fault { result ≡ Err Stop.ReadFault → ⊥ }
{
    Ok(ways_round(alloc, faces, sides)?)
}

/// The cover by ways round the vertices, or why there is none.
fn cover_on(alloc: Global, on: &MeshWithWays) -> Result<Faces, Stop>
    requires { IsWithWays on.now }
    ensures end { Ends (covered (seen on.now)) result }
    ensures no_fault { result ≡ Err Stop.ReadFault → ⊥ }
{
    match cover(alloc, &on.faces, &on.ways) {
        Ok(cover) => {
            // The proof reads what holds of every face list.
            let _ = cover.len();
            Ok(cover)
        }
        Err(fault) => Err(refused_as(fault)),
    }
}

/// What stops the program where the cover is too large.
fn refused_as(fault: DoubleFault) -> Stop
    ensures { Tells (cover_line fault) result }
{
    match fault {
        DoubleFault::TooManyVertices => refused(&[Phrase::Text("cover vertices")]),
        DoubleFault::TooManySides => refused(&[Phrase::Text("cover sides")]),
        DoubleFault::OutOfMemory => Stop::OutOfMemory,
    }
}
