//! The maps on the darts of a mesh whose faces are signed, as they are kept.
ghost use Rattle.std.specs.Prelude.{◌≡◌, ◌+◌, ◌<◌, ◌≤◌, ℕ, true, false, length, IfOk, OnOk};
ghost use Rattle.surf_model.specs.FaceLists.{IsFaceList, HasFileSize, is_used, total_sides};
ghost use Rattle.surf_model.specs.Darts.{first_side};
ghost use Rattle.surf_model.specs.Edges.{IsTableOf};
ghost use Rattle.surf_model.specs.Surfaces.{is_flipped};
ghost use Rattle.surf_model.specs.Numbers.{count_below};
ghost use Rattle.halfedge_map.specs.StoredDarts.{ListNexts, ListOrigins, KeepOrigins, signed};
ghost use Rattle.surf_model.specs.declared.limits.TheConstants.{MOST_SIDES};

use std::alloc::{AllocError, Global};
use surf_model::faces::corner_after;
use surf_model::{DartName, FaceName, Faces, Sides, Signs, VertexName};

/// Where the darts start.
#[derive(Debug, Drop)]
pub(crate) enum Origins {
    /// No face is flipped: a dart starts at the corner of its own number, where the face list has its vertex.
    AsListed,
    /// For each dart the vertex where it starts.
    Stored(Vec<VertexName>),
}

/// For each dart the one that follows in its face.
pub(crate) fn next_darts(
    alloc: Global,
    faces: &Faces,
    signs: &Signs,
) -> Result<Vec<DartName>, AllocError>
    requires { length signs.now ≡ length faces.now.faces }
    // What holds of every face list.
    ensures valid { OnOk result (IsFaceList faces.now) }
    ensures small { OnOk result (HasFileSize faces.now) }
    ensures stored { IfOk result (λ next. ListNexts (signed faces.now signs.now) (total_sides faces.now) next.items) }
{
    let mut next = Vec::with_capacity(alloc, faces.total() as usize)?;
    for face in 0..faces.len() {
        push_nexts(&mut next, faces, signs, FaceName(face))?;
    }
    Ok(next)
}

/// Puts the darts that follow those of a face last.
fn push_nexts(
    next: &mut Vec<DartName>,
    faces: &Faces,
    signs: &Signs,
    face: FaceName,
) -> Result<(), AllocError>
    requires signs { length signs.now ≡ length faces.now.faces }
    requires face { face.0 < length faces.now.faces }
    requires few { total_sides faces.now ≤ MOST_SIDES }
    requires before { ListNexts (signed faces.now signs.now) (first_side faces.now face.0) next.old.items }
    ensures { OnOk result (ListNexts (signed faces.now signs.now) (first_side faces.now (face.0 + 1)) next.new.items) }
{
    let first = faces.first_dart(face).0;
    let sides = faces.sides(face);
    let flipped = signs.flipped(face);
    for at in 0..sides {
        next.push(DartName(first + corner_after(!flipped, sides, at)))?;
    }
    Ok(())
}

/// Where the darts start. It takes memory only where some face is flipped.
pub(crate) fn kept_origins(
    alloc: Global,
    faces: &Faces,
    signs: &Signs,
) -> Result<Origins, AllocError>
    requires { length signs.now ≡ length faces.now.faces }
    ensures { IfOk result (KeepOrigins (signed faces.now signs.now) (total_sides faces.now)) }
{
    if any_flipped(signs) {
        Ok(Origins::Stored(start_vertices(alloc, faces, signs)?))
    } else {
        Ok(Origins::AsListed)
    }
}

/// Whether some face is flipped.
fn any_flipped(signs: &Signs) -> bool
    ensures flipped { result ≡ true → (face : ℕ) × (is_flipped signs.now face ≡ true) }
    ensures kept { result ≡ false → (face : ℕ) → is_flipped signs.now face ≡ false }
{
    for face in 0..signs.len() {
        if signs.flipped(FaceName(face)) {
            return true;
        }
    }
    false
}

/// For each dart the vertex where it starts.
fn start_vertices(
    alloc: Global,
    faces: &Faces,
    signs: &Signs,
) -> Result<Vec<VertexName>, AllocError>
    requires { length signs.now ≡ length faces.now.faces }
    ensures { IfOk result (λ origin. ListOrigins (signed faces.now signs.now) (total_sides faces.now) origin.items) }
{
    let mut origin = Vec::with_capacity(alloc, faces.total() as usize)?;
    for face in 0..faces.len() {
        push_starts(&mut origin, faces, signs, FaceName(face))?;
    }
    Ok(origin)
}

/// Puts the vertices where the darts of a face start last.
fn push_starts(
    origin: &mut Vec<VertexName>,
    faces: &Faces,
    signs: &Signs,
    face: FaceName,
) -> Result<(), AllocError>
    requires signs { length signs.now ≡ length faces.now.faces }
    requires face { face.0 < length faces.now.faces }
    requires before { ListOrigins (signed faces.now signs.now) (first_side faces.now face.0) origin.old.items }
    ensures { OnOk result (ListOrigins (signed faces.now signs.now) (first_side faces.now (face.0 + 1)) origin.new.items) }
{
    let sides = faces.sides(face);
    let flipped = signs.flipped(face);
    for at in 0..sides {
        let start = if flipped {
            corner_after(true, sides, at)
        } else {
            at
        };
        origin.push(faces.corner(face, start))?;
    }
    Ok(())
}

/// How many vertices some face of the mesh with this table names.
pub fn used_vertices(faces: &Faces, sides: &Sides) -> u32
    requires { IsTableOf faces.now sides.now }
    ensures { result ≡ count_below (is_used faces.now) faces.now.count }
{
    let mut used = 0;
    for v in 0..faces.count() {
        if sides.used(VertexName(v)) {
            used += 1;
        }
    }
    used
}
