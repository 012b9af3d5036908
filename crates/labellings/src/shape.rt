//! The shape of a labelling, and its degree.
ghost use Rattle.std.specs.Prelude.{◌≡◌, ℕ, ◌<◌, ◌↔◌, All, length, slice_index, IsTrue};
ghost use Rattle.turn_words.specs.Modulo.{add};
ghost use Rattle.labellings.specs.GoodLabellings.{HasShape, HasDegree};
ghost use Rattle.labellings.specs.LabelFaults.{FitsFace};

use crate::labelling::Labelling;
use crate::rules::one_more;
use surf_model::{FaceName, Faces};

/// Whether a labelling has the shape of a mesh.
pub(crate) fn has_shape(faces: &Faces, labelling: &Labelling) -> bool
    ensures { IsTrue result ↔ HasShape faces.now labelling.now }
{
    labelling.faces() == faces.len()
        && labelling.places() == labelling.degree()
        && are_below(labelling.all_places(), labelling.degree())
        && each_face_fits(faces, labelling)
}

/// Whether all numbers are below a bound.
fn are_below(numbers: &[u32], bound: u32) -> bool
    ensures { IsTrue result ↔ All (λ number. number < bound) numbers.now }
{
    numbers.iter().all(|number| *number < bound)
}

/// Whether each face has a label for each of its corners, all below the degree.
fn each_face_fits(faces: &Faces, labelling: &Labelling) -> bool
    requires { length labelling.now.faces ≡ length faces.now.faces }
    ensures { IsTrue result ↔ ((f : ℕ) → f < length faces.now.faces → FitsFace faces.now labelling.now f) }
{
    for face in 0..faces.len() {
        if !face_fits(faces, labelling, FaceName(face)) {
            return false;
        }
    }
    true
}

/// Whether a face has a label for each of its corners, all below the degree.
fn face_fits(faces: &Faces, labelling: &Labelling, face: FaceName) -> bool
    requires mesh { face.0 < length faces.now.faces }
    requires labels { face.0 < length labelling.now.faces }
    ensures { IsTrue result ↔ FitsFace faces.now labelling.now face.0 }
{
    labelling.corners(face) == faces.sides(face)
        && are_below(labelling.labels(face), labelling.degree())
}

/// Whether there are five spokes at least, or four whose places rise by one.
pub(crate) fn has_degree(labelling: &Labelling) -> bool
    requires each_spoke { length labelling.now.places ≡ labelling.now.degree }
    requires places { All (λ place. place < labelling.now.degree) labelling.now.places }
    ensures { IsTrue result ↔ HasDegree labelling.now }
{
    let degree = labelling.degree();
    degree >= 5 || degree == 4 && places_rise(labelling.all_places())
}

/// Whether four places rise by one, counted round.
fn places_rise(places: &[u32]) -> bool
    requires four { length places.now ≡ 4 }
    requires below { All (λ place. place < 4) places.now }
    ensures { IsTrue result
        ↔ ((i : ℕ) → i < 4 → slice_index places.now (add 4 i 1) ≡ add 4 (slice_index places.now i) 1) }
{
    for spoke in 0..4 {
        if places[one_more(4, spoke) as usize] != one_more(4, places[spoke as usize]) {
            return false;
        }
    }
    true
}
