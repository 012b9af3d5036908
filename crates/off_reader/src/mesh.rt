//! The reader of mesh texts, from the first line to the last face.
ghost use Rattle.std.specs.Prelude.{◌≡◌, ◌⊎◌, ◌≤◌, List, [], ◌∷◌, Ok, Err, Some, MatchResult};
ghost use Rattle.std.specs.Result.{result_err};
ghost use Rattle.text_scan.specs.Lines.{Line};
ghost use Rattle.text_scan.specs.Unread.{Unread};
ghost use Rattle.off_reader.specs.OffTexts.{taken, point_fault, face_fault, rings_named, meaning_of};
ghost use Rattle.off_reader.specs.OffSteps.{present_line, IsSameLine, TakesPoints, TakesFaces};
ghost use Rattle.surf_model.specs.declared.limits.TheConstants.{MOST_VERTICES};

use crate::header::{Header, read_header};
use crate::off_fault::OffFault;
use crate::ring::read_ring;
use std::alloc::Global;
use surf_model::{Faces, FacesBuilder};
use text_scan::Cursor;

/// The mesh that a text means in the format OFF, or its first fault.
///
/// In each line everything from the first `#` on is a comment, and lines without words are passed
/// over. The first word may be a keyword; then come the numbers of vertices and faces, a line for
/// each vertex, and a line for each face. Lines behind the last face are not looked at.
pub fn read_off(alloc: Global, bytes: &[u8]) -> Result<Faces, OffFault>
    ensures { (result ≡ meaning_of bytes.now) ⊎ (result ≡ Err OffFault.OutOfMemory) }
{
    let mut cursor = Cursor::new(bytes);
    let header = read_header(&mut cursor)?;
    pass_points(&mut cursor, header.coordinates, header.vertices)?;
    read_faces(alloc, &mut cursor, header)
}

/// Passes over the lines of so many vertices.
fn pass_points(cursor: &mut Cursor, coordinates: u32, vertices: u32) -> Result<(), OffFault>
    ensures points { TakesPoints coordinates vertices cursor.old result cursor.new }
    ensures end { cursor.new.end_line ≡ cursor.old.end_line }
{
    for _ in 0..vertices {
        next_line(cursor)?;
        pass_point(cursor, coordinates)?;
    }
    Ok(())
}

/// Goes to the next line that is not blank.
#[inline(always)]
fn next_line(cursor: &mut Cursor) -> Result<(), OffFault>
    ensures line { MatchResult result (λ _. cursor.old.lines ≡ present_line cursor.new ∷ cursor.new.lines)
        (λ fault. (cursor.old.lines ≡ []) × (fault ≡ OffFault.Ended cursor.old.end_line)) }
    ensures end { cursor.new.end_line ≡ cursor.old.end_line }
{
    cursor.pass_line();
    if cursor.find_line() {
        Ok(())
    } else {
        Err(OffFault::Ended {
            line: cursor.end_line(),
        })
    }
}

/// Passes over the coordinates of a vertex.
fn pass_point(cursor: &mut Cursor, coordinates: u32) -> Result<(), OffFault>
    ensures fault { result_err result ≡ point_fault coordinates [] (present_line cursor.old) }
    ensures line { IsSameLine cursor.old cursor.new }
{
    for _ in 0..coordinates {
        if !cursor.number_text() {
            return Err(OffFault::BadVertex {
                line: cursor.line(),
            });
        }
    }
    Ok(())
}

/// Reads the lines of the faces.
fn read_faces(alloc: Global, cursor: &mut Cursor, header: Header) -> Result<Faces, OffFault>
    requires { header.vertices ≤ MOST_VERTICES }
    ensures { TakesFaces header.vertices header.faces cursor.old result }
{
    let mut faces = FacesBuilder::new(alloc, header.vertices);
    for _ in 0..header.faces {
        next_line(cursor)?;
        read_ring(cursor, header.vertices, &mut faces)?;
        faces.close()?;
    }
    Ok(faces.finish())
}
