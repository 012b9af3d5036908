//! Reading the files that the words name.
ghost use Rattle.std.specs.Prelude.{◌≡◌, MatchResult, IfOk, Err};
ghost use Rattle.surf_model.specs.FaceLists.{FaceList};
ghost use Rattle.surf_model.specs.Edges.{IsTableOf};
ghost use Rattle.walk_files.specs.Pairs.{IsPair};
ghost use Rattle.commands.specs.Checks.{file, meant, Passes};
ghost use Rattle.commands.specs.Inputs.{mesh_in, pair_in, text_in};
ghost use Rattle.commands.specs.Refusals.{numbers_line};
ghost use Rattle.commands.specs.declared.refusal.Input.{Input};
ghost use Rattle.commands.specs.declared.stop.Stop.{Stop};
ghost use Rattle.walk_files.specs.WalkTexts.{walk_text_of};
ghost use Rattle.commands.specs.Stops.{Ends, EndsReading, Stops};

use crate::refusal::Input;
use crate::stop::Stop;
use off_reader::read_off;
use std::alloc::Global;
use surf_io::{ReadEnd, Shelf, read_whole};
use surf_model::{Faces, Sides};
use walk_files::{WalkList, check_pair, read_walks};

/// The most bytes that a file may have.
pub const MOST_BYTES: u64 = 268_435_456;

/// Reads a file whole, within the limit.
pub fn read_file<S: Shelf>(
    alloc: Global,
    shelf: &mut S,
    name: &str,
    input: Input,
) -> Result<Vec<u8>, Stop>
    ensures { EndsReading S.held S.faults shelf.old shelf.new (λ files. MatchResult result
        (λ bytes. Passes (file files name.now input) bytes.items) (Stops (file files name.now input))) result }
{
    match read_whole(alloc, shelf, name, MOST_BYTES) {
        Ok(bytes) => Ok(bytes),
        Err(ReadEnd::Fault) => Err(Stop::ReadFault),
        Err(ReadEnd::TooLarge) => Err(input.too_large()),
        Err(ReadEnd::OutOfMemory) => Err(Stop::OutOfMemory),
    }
}

/// Reads the mesh.
pub fn read_mesh<S: Shelf>(alloc: Global, shelf: &mut S, name: &str) -> Result<Faces, Stop>
    ensures { EndsReading S.held S.faults shelf.old shelf.new (λ files. Ends (mesh_in files name.now) result) result }
{
    let bytes = read_file(alloc, shelf, name, Input::Mesh)?;
    Ok(read_off(alloc, &bytes)?)
}

/// Reads walks, of which nothing else is asked yet.
pub fn read_list<S: Shelf>(alloc: Global, shelf: &mut S, name: &str) -> Result<WalkList, Stop>
    ensures { EndsReading S.held S.faults shelf.old shelf.new (λ files. Ends (text_in files name.now) result) result }
{
    let bytes = read_file(alloc, shelf, name, Input::Walks)?;
    walks_of_bytes(alloc, &bytes)
}

/// Reads the two walks of the mesh with this table.
pub fn read_pair<S: Shelf>(
    alloc: Global,
    shelf: &mut S,
    name: &str,
    sides: &Sides,
) -> Result<WalkList, Stop>
    ensures reads { EndsReading S.held S.faults shelf.old shelf.new
        (λ files. (mesh : FaceList) → IsTableOf mesh sides.now
        → MatchResult result (λ list. Passes (pair_in files name.now mesh) list.walks) (Stops (pair_in files name.now mesh))) result }
    ensures pair { IfOk result (λ list. (mesh : FaceList) → IsTableOf mesh sides.now → IsPair mesh list.walks) }
{
    let walks = read_list(alloc, shelf, name)?;
    check_pair(sides, &walks)?;
    Ok(walks)
}

/// The walks that the bytes spell.
fn walks_of_bytes(alloc: Global, bytes: &[u8]) -> Result<WalkList, Stop>
    ensures end { Ends (meant (numbers_line Input.Walks) (walk_text_of bytes.now)) result }
    ensures no_fault { result ≡ Err Stop.ReadFault → ⊥ }
{
    match read_walks(alloc, bytes) {
        Ok(walks) => Ok(walks),
        Err(fault) => Err(Input::Walks.refused_for(fault)),
    }
}
