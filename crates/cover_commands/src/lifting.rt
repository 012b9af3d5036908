//! Lifting the walks of a pair.
ghost use Rattle.std.specs.Prelude.{◌≡◌, IfOk, MatchResult};
ghost use Rattle.walk_files.specs.Pairs.{IsPair};
ghost use Rattle.commands.specs.Checks.{Passes};
ghost use Rattle.commands.specs.Stops.{EndsReading, Stops};
ghost use Rattle.cover_commands.specs.MeshCover.{IsWithWays, do_meet, lifts_behind, lifts_in, lifts_on, seen, seen_lifts};

use crate::reading::{MeshWithWays, read_with_ways};
use commands::{Stop, read_pair};
use orientation_cover::lift;
use std::alloc::{AllocError, Global};
use surf_io::Shelf;
use surf_model::Walk;
use walk_files::WalkList;

/// The lifts of two walks that begin on the lower sheet.
#[derive(Drop)]
pub(crate) struct Lifts {
    pub(crate) first: Walk,
    pub(crate) second: Walk,
}

/// The lifts of the two walks in the file `walks` to the cover of the closed manifold in the file `mesh`.
pub(crate) fn read_lifts<S: Shelf>(
    alloc: Global,
    shelf: &mut S,
    mesh: &str,
    walks: &str,
) -> Result<Lifts, Stop>
    ensures { EndsReading S.held S.faults shelf.old shelf.new (λ files. MatchResult result
        (λ lifts. Passes (lifts_in files mesh.now walks.now) (seen_lifts lifts)) (Stops (lifts_in files mesh.now walks.now))) result }
{
    let on = read_with_ways(alloc, shelf, mesh)?;
    let lifts = lift_read(alloc, shelf, &on, walks);
    // By a call, which is proved once, and not here again.
    drop(on);
    lifts
}

/// The lifts of the two walks in the file `walks`.
fn lift_read<S: Shelf>(
    alloc: Global,
    shelf: &mut S,
    on: &MeshWithWays,
    walks: &str,
) -> Result<Lifts, Stop>
    requires { IsWithWays on.now }
    ensures { EndsReading S.held S.faults shelf.old shelf.new (λ files. MatchResult result
        (λ lifts. Passes (lifts_behind files walks.now (seen on.now)) (seen_lifts lifts))
        (Stops (lifts_behind files walks.now (seen on.now)))) result }
{
    let walks = read_pair(alloc, shelf, walks, &on.sides)?;
    let lifts = lift_both(alloc, on, &walks);
    drop(walks);
    Ok(lifts?)
}

/// The lifts of two walks.
fn lift_both(alloc: Global, on: &MeshWithWays, walks: &WalkList) -> Result<Lifts, AllocError>
    requires ways { IsWithWays on.now }
    requires pair { IsPair on.now.faces walks.now.walks }
    ensures { IfOk result (λ lifts. seen_lifts lifts ≡ lifts_on (seen on.now) walks.now.walks) }
{
    let first = lift(alloc, &on.faces, &on.sides, &on.ways, walks.at(0))?;
    let second = lift(alloc, &on.faces, &on.sides, &on.ways, walks.at(1))?;
    Ok(Lifts { first, second })
}

/// Whether two lifts end at one vertex.
pub(crate) fn do_meet(lifts: &Lifts) -> bool
    ensures { result ≡ do_meet (seen_lifts lifts.now) }
{
    let (first, second) = (&lifts.first, &lifts.second);
    first.at(first.darts()) == second.at(second.darts())
}
