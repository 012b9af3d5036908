//! Building the cover, face by face.
ghost use Rattle.std.specs.Prelude.{◌≡◌, ◌⊎◌, ◌+◌, ◌<◌, [], length, IfOk, IfErr, OnOk};
ghost use Rattle.surf_model.specs.FaceLists.{HasFileSize, face_at, total_sides};
ghost use Rattle.doubling.specs.Building.{with_face, HasNoRoom};
ghost use Rattle.doubling.specs.DoubleFaults.{IsTooLarge};
ghost use Rattle.double_covers.specs.Covers.{lifted, over};
ghost use Rattle.orientation_cover.specs.Ways.{AreWays, told_by};
ghost use Rattle.orientation_cover.specs.Turns.{cover_by, turns_by};
ghost use Rattle.orientation_cover.specs.Building.{first_made_faces};

use crate::sheets::{differ, over};
use crate::ways::WaysRound;
use doubling::{DoubleFault, close_face};
use std::alloc::Global;
use surf_model::{FaceName, Faces, FacesBuilder, MOST_VERTICES, Side, VertexName};

/// The cover of a mesh by ways round its vertices. The time is that of going over the sides twice.
pub fn cover(alloc: Global, faces: &Faces, ways: &WaysRound) -> Result<Faces, DoubleFault>
    requires { AreWays faces.now ways.now }
    ensures cover { IfOk result (λ cover. cover ≡ cover_by faces.now ways.now) }
    // There is none exactly where it would be larger than a mesh may be, or where there is no memory for it.
    ensures fault { IfErr result (λ fault. (fault ≡ DoubleFault.OutOfMemory) ⊎ IsTooLarge (cover_by faces.now ways.now) fault) }
    ensures made { HasFileSize (cover_by faces.now ways.now) → IfErr result (λ fault. fault ≡ DoubleFault.OutOfMemory) }
{
    if faces.count() > MOST_VERTICES / 2 {
        return Err(DoubleFault::TooManyVertices);
    }
    let mut cover = FacesBuilder::new(alloc, 2 * faces.count());
    put_sheet(&mut cover, faces, ways, false)?;
    put_sheet(&mut cover, faces, ways, true)?;
    Ok(cover.finish())
}

/// Puts for each face of the mesh the one over it that begins on a sheet.
fn put_sheet(
    cover: &mut FacesBuilder,
    faces: &Faces,
    ways: &WaysRound,
    upper: bool,
) -> Result<(), DoubleFault>
    requires ways { AreWays faces.now ways.now }
    requires cover { cover.old ≡ first_made_faces (cover_by faces.now ways.now) (over (length faces.now.faces) upper 0) }
    ensures put { OnOk result (cover.new
        ≡ first_made_faces (cover_by faces.now ways.now) (over (length faces.now.faces) upper (length faces.now.faces))) }
    ensures fault { IfErr result (HasNoRoom (total_sides (cover_by faces.now ways.now))) }
{
    for face in 0..faces.len() {
        put_lift(cover, faces, ways, FaceName(face), upper)?;
    }
    Ok(())
}

/// Puts the face over a face that begins on a sheet.
fn put_lift(
    cover: &mut FacesBuilder,
    faces: &Faces,
    ways: &WaysRound,
    face: FaceName,
    upper: bool,
) -> Result<(), DoubleFault>
    requires ways { AreWays faces.now ways.now }
    requires face { face.0 < length faces.now.faces }
    requires none { cover.old.pending ≡ [] }
    requires count { cover.old.mesh.count ≡ faces.now.count + faces.now.count }
    ensures put { OnOk result (cover.new ≡ with_face cover.old
        (lifted (turns_by faces.now (told_by faces.now ways.now)) faces.now.count upper (face_at faces.now face.0))) }
    ensures fault { IfErr result (HasNoRoom (total_sides cover.old.mesh + length (face_at faces.now face.0))) }
{
    // The proof reads what holds of every face list.
    let _ = faces.len();
    let first = ways.against(faces, Side { face, at: 0 });
    for at in 0..faces.sides(face) {
        // A face goes over to the other sheet where it goes with the one way and against the other.
        let turned = differ(first, ways.against(faces, Side { face, at }));
        let vertex = faces.corner(face, at);
        cover.push(VertexName(over(faces.count(), differ(turned, upper), vertex.0)))?;
    }
    close_face(cover)
}
