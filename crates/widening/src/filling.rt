//! A labelling of a component, widened to the whole mesh.
ghost use Rattle.std.specs.Prelude.{◌≡◌, ◌≤◌, ◌<◌, ◌↔◌, ℕ, List, [], length, slice_index, replicate, IsTrue, IfOk, OnOk};
ghost use Rattle.surf_model.specs.FaceLists.{face_at};
ghost use Rattle.surf_model.specs.Walks.{IsWalk};
ghost use Rattle.surf_model.specs.Surfaces.{IsClosedManifold, IsCoherent};
ghost use Rattle.surf_model.specs.ComponentParts.{AreParts, component_at, component_mesh};
ghost use Rattle.surf_model.specs.Submeshes.{signs_among};
ghost use Rattle.labellings.specs.Labellings.{signs_of};
ghost use Rattle.labellings.specs.GoodLabellings.{IsGood};
ghost use Rattle.labellings.specs.QuadPaths.{quad_path};
ghost use Rattle.widening.specs.Widened.{IsWidened};

use labellings::{GoodLabelling, Labelling};
use manifold_check::Parts;
use std::alloc::{AllocError, Global};
use surf_model::{FaceName, Faces, Signs};

/// The labelling of the whole mesh that has the labels of `good` on the faces of a component and the label 0 at every other
/// corner, with the same degree and places, and with the signs of the whole mesh. `good` is a good labelling of the
/// component's mesh, with the signs that its faces have in the whole mesh.
pub fn widen(
    alloc: Global,
    faces: &Faces,
    signs: &Signs,
    parts: &Parts,
    part: u32,
    good: &GoodLabelling,
) -> Result<Labelling, AllocError>
    requires parts { AreParts faces.now parts.now }
    requires part { part < length parts.now.components }
    requires closed { IsClosedManifold faces.now }
    requires coherent { IsCoherent faces.now signs.now }
    requires good { IsGood (component_mesh faces.now parts.now part) good.now }
    requires signs { signs_of good.now ≡ signs_among signs.now (component_at parts.now part) }
    ensures widened { IfOk result (IsWidened faces.now signs.now (component_at parts.now part) good.now) }
    ensures good { IfOk result (IsGood faces.now) }
    ensures paths { (walk : List ℕ) → IsWalk faces.now walk → slice_index parts.now.places (slice_index walk 0) ≡ part
        → IfOk result (λ wide. quad_path faces.now wide walk ≡ quad_path (component_mesh faces.now parts.now part) good.now walk) }
{
    let narrow = good.labelling();
    let zeros = zeros(alloc, faces)?;
    let mut wide = Labelling::new(alloc, narrow.degree());
    let mut next = 0;
    for face in 0..faces.len() {
        let name = FaceName(face);
        let flipped = signs.flipped(name);
        if is_next(parts, part, FaceName(next), name) {
            wide.push_face(flipped, narrow.labels(FaceName(next)))?;
            next += 1;
        } else {
            wide.push_face(flipped, &zeros[..faces.sides(name) as usize])?;
        }
    }
    put_places(&mut wide, narrow)?;
    Ok(wide)
}

/// Whether a face of the component is there and has this name in the whole mesh.
fn is_next(parts: &Parts, part: u32, face: FaceName, name: FaceName) -> bool
    requires { part < length parts.now.components }
    ensures { IsTrue result
        ↔ ((face.0 < length (component_at parts.now part)) × (slice_index (component_at parts.now part) face.0 ≡ name.0)) }
{
    face.0 < parts.size(part) && parts.name(part, face) == name
}

/// As many zeros as the largest face has corners.
fn zeros(alloc: Global, faces: &Faces) -> Result<Vec<u32>, AllocError>
    ensures all { IfOk result (λ zeros. zeros.items ≡ replicate (length zeros.items) 0) }
    ensures enough { IfOk result (λ zeros. (f : ℕ) → f < length faces.now.faces → length (face_at faces.now f) ≤ length zeros.items) }
{
    let mut most = 0;
    for face in 0..faces.len() {
        most = most.max(faces.sides(FaceName(face)));
    }
    Ok(vec![in alloc; 0u32; most as usize]?)
}

/// Puts the places of a labelling into another one that has none yet.
fn put_places(wide: &mut Labelling, narrow: &Labelling) -> Result<(), AllocError>
    requires { wide.old.places ≡ [] }
    ensures { OnOk result (wide.new ≡ record wide.old { places = narrow.now.places }) }
{
    for place in narrow.all_places() {
        wide.push_place(*place)?;
    }
    Ok(())
}
