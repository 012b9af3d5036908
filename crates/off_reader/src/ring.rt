//! The corners in the line of a face.
ghost use Rattle.std.specs.Prelude.{◌≡◌, ◌⊎◌, [], ◌+◌, ◌-◌, ◌^◌, ◌<◌, ◌≤◌, ◌&&◌, nat_le, nat_lt, if◌then◌else◌, true, Some, None, length, take, map, MatchResult, IfErr};
ghost use Rattle.std.specs.List.{list_all};
ghost use Rattle.text_scan.specs.Numbers.{is_natural, value_of};
ghost use Rattle.surf_model.specs.FaceLists.{total_sides};
ghost use Rattle.surf_model.specs.Vertices.{numbers};
ghost use Rattle.off_reader.specs.OffTexts.{corners_among, corners_of, has_equal_neighbours, ring_fault};
ghost use Rattle.off_reader.specs.OffSteps.{IsSameLine, ReadsCorners};
ghost use Rattle.surf_model.specs.declared.limits.TheConstants.{MOST_VERTICES, MOST_SIDES};

use crate::off_fault::OffFault;
use surf_model::{FacesBuilder, MOST_SIDES, VertexName};
use text_scan::Cursor;

/// Reads the corners of a face among `vertices` vertices, which stand behind the faces before it as one that may be
/// closed.
pub(crate) fn read_ring(
    cursor: &mut Cursor,
    vertices: u32,
    faces: &mut FacesBuilder,
) -> Result<(), OffFault>
    requires vertices { vertices ≤ MOST_VERTICES }
    requires sides { total_sides faces.old.mesh ≤ MOST_SIDES }
    requires none { faces.old.pending ≡ [] }
    ensures ring { MatchResult result
        (λ _. (corners_of cursor.old.words ≡ Some faces.new.pending)
        × (ring_fault vertices (total_sides faces.old.mesh) cursor.old.line (corners_of cursor.old.words) ≡ None))
        (λ fault. (fault ≡ OffFault.OutOfMemory)
        ⊎ (ring_fault vertices (total_sides faces.old.mesh) cursor.old.line (corners_of cursor.old.words) ≡ Some fault)) }
    ensures mesh { faces.new.mesh ≡ faces.old.mesh }
    ensures line { IsSameLine cursor.old cursor.new }
{
    let line = cursor.line();
    let sides = match cursor.natural() {
        Some(sides) if sides >= 3 => sides,
        _ => return Err(OffFault::BadFace { line }),
    };
    if sides > u64::from(MOST_SIDES - faces.total()) {
        return Err(fault_of_many(cursor, sides));
    }
    if !read_corners(cursor, vertices, sides as u32, faces)? {
        return Err(OffFault::IndexRange { line });
    }
    if has_equal_neighbours(faces.pending()) {
        return Err(OffFault::EqualNeighbours { line });
    }
    Ok(())
}

/// The fault of a face with more sides than there is room for.
#[cold]
#[inline(never)]
fn fault_of_many(cursor: &mut Cursor, sides: u64) -> OffFault
    ensures fault { result ≡ (if nat_le sides (length cursor.old.words) && list_all is_natural (take sides cursor.old.words)
        then OffFault.TooMany cursor.old.line else OffFault.BadFace cursor.old.line) }
    ensures line { IsSameLine cursor.old cursor.new }
{
    let line = cursor.line();
    for _ in 0..sides {
        let Some(_corner) = cursor.natural() else {
            return OffFault::BadFace { line };
        };
    }
    OffFault::TooMany { line }
}

/// Reads so many corners, and says whether all of them are below `vertices`.
fn read_corners(
    cursor: &mut Cursor,
    vertices: u32,
    sides: u32,
    faces: &mut FacesBuilder,
) -> Result<bool, OffFault>
    requires vertices { vertices ≤ MOST_VERTICES }
    requires polygon { 3 ≤ sides }
    requires none { faces.old.pending ≡ [] }
    ensures corners { ReadsCorners vertices sides cursor.old result faces.new.pending }
    ensures mesh { faces.new.mesh ≡ faces.old.mesh }
    ensures line { IsSameLine cursor.old cursor.new }
{
    let line = cursor.line();
    let mut in_range = true;
    for _ in 0..sides {
        let Some(corner) = cursor.natural() else {
            return Err(OffFault::BadFace { line });
        };
        if corner >= u64::from(vertices) {
            in_range = false;
            continue;
        }
        faces.push(VertexName(corner as u32))?;
    }
    Ok(in_range)
}

/// Whether two neighbours round the face are one vertex.
fn has_equal_neighbours(ring: &[VertexName]) -> bool
    ensures { result ≡ has_equal_neighbours (numbers ring.now) }
{
    let sides = ring.len();
    for corner in 1..sides {
        if ring[corner - 1].0 == ring[corner].0 {
            return true;
        }
    }
    sides > 0 && ring[sides - 1].0 == ring[0].0
}
