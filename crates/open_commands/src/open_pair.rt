//! Reading an open surface and two walks of it.
ghost use Rattle.std.specs.Prelude.{MatchResult, IfOk};
ghost use Rattle.commands.specs.Checks.{Passes};
ghost use Rattle.commands.specs.Stops.{EndsReading, Stops};
ghost use Rattle.open_commands.specs.OpenPairs.{IsOpenPair, asked, open_pair_in};

use crate::open_input::read_open_surface;
use commands::{Limits, Stop, read_pair};
use free_forms::{MOST_OPEN_DARTS, MOST_OPEN_SIDES, OpenMesh};
use std::alloc::Global;
use surf_io::Shelf;
use walk_files::WalkList;

/// What lists of moves are made for.
const LIMITS: Limits = Limits {
    sides: MOST_OPEN_SIDES,
    darts: MOST_OPEN_DARTS,
};

/// An open surface and two walks of it with common ends, within the limits.
#[derive(Drop)]
pub(crate) struct OpenPair {
    pub(crate) surface: OpenMesh,
    pub(crate) walks: WalkList,
}

/// The open surface in the file `mesh` and the two walks of it in the file `walks`. The walks are read only where the surface is in order,
/// and the limits are looked at last. Then a parent is found for each face.
pub(crate) fn read_open_pair<S: Shelf>(
    alloc: Global,
    shelf: &mut S,
    mesh: &str,
    walks: &str,
) -> Result<OpenPair, Stop>
    ensures reads { EndsReading S.held S.faults shelf.old shelf.new (λ files. MatchResult result
        (λ pair. Passes (open_pair_in files mesh.now walks.now) (asked pair)) (Stops (open_pair_in files mesh.now walks.now))) result }
    ensures pair { IfOk result IsOpenPair }
{
    let (faces, sides) = read_open_surface(alloc, shelf, mesh)?;
    let walks = read_pair(alloc, shelf, walks, &sides)?;
    LIMITS.check("open", &faces, walks.at(0), walks.at(1))?;
    let surface = OpenMesh::build(alloc, faces, sides)?;
    Ok(OpenPair { surface, walks })
}
