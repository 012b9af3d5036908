//! Whether a labelling is good.
ghost use Rattle.std.specs.Prelude.{◌≡◌, ◌⊎◌, ℕ, ◌<◌, ◌↔◌, All, length, IsTrue, IfOk, OnOk, IfErr, IfSome, IfNone};
ghost use Rattle.surf_model.specs.Edges.{IsTableOf, edge_in};
ghost use Rattle.labellings.specs.GoodLabellings.{HasShape, HasPlaces, IsGood};
ghost use Rattle.labellings.specs.LabelFaults.{IsFirstLabelFault};
ghost use Rattle.labellings.specs.TableRules.{EntryMeetsRule, IsFirstAgainstRules, IsPlaceFault};

use crate::fault::LabelFault;
use crate::good::GoodLabelling;
use crate::labelling::Labelling;
use crate::rules::sides_meet_rule;
use crate::shape::{has_degree, has_shape};
use std::alloc::Global;
use surf_model::{EdgeName, Faces, Sides};
use turn_words::{Wheel, WheelFault};

/// Checks that a labelling is good for a mesh: its shape, its degree, its places, and then each edge once. The error
/// names the first of these that fails, with its least element. No memory is taken but for the wheel.
pub fn check_labelling(
    alloc: Global,
    faces: &Faces,
    sides: &Sides,
    labelling: Labelling,
) -> Result<GoodLabelling, LabelFault>
    requires { IsTableOf faces.now sides.now }
    ensures labelling { IfOk result (λ good. good ≡ labelling) }
    ensures good { OnOk result (IsGood faces.now labelling) }
    ensures fault { IfErr result (λ fault. (fault ≡ LabelFault.OutOfMemory) ⊎ IsFirstLabelFault faces.now labelling fault) }
    // A good labelling is refused for want of memory alone.
    ensures accepted { IsGood faces.now labelling → IfErr result (λ fault. fault ≡ LabelFault.OutOfMemory) }
{
    if !has_shape(faces, &labelling) {
        return Err(LabelFault::Shape);
    }
    if !has_degree(&labelling) {
        return Err(LabelFault::Degree {
            degree: labelling.degree(),
        });
    }
    let wheel = wheel_of(alloc, &labelling)?;
    if let Some(edge) = first_against(faces, sides, &labelling) {
        let (low, high) = sides.ends(edge);
        return Err(LabelFault::EdgeRule { low, high });
    }
    Ok(GoodLabelling::from_parts(labelling, wheel))
}

/// The wheel of the places.
fn wheel_of(alloc: Global, labelling: &Labelling) -> Result<Wheel, LabelFault>
    requires each_spoke { length labelling.now.places ≡ labelling.now.degree }
    requires places { All (λ place. place < labelling.now.degree) labelling.now.places }
    ensures wheel { IfOk result (λ wheel. wheel ≡ labelling.now.places) }
    ensures places { OnOk result (HasPlaces labelling.now) }
    ensures fault { IfErr result (IsPlaceFault labelling.now) }
{
    match Wheel::build(alloc, labelling.all_places()) {
        Ok(wheel) => Ok(wheel),
        Err(WheelFault::Twice { place }) => Err(LabelFault::PlaceTwice { place }),
        // No place is too large.
        Err(WheelFault::Range { spoke: _ }) => Err(LabelFault::Shape),
        Err(WheelFault::OutOfMemory) => Err(LabelFault::OutOfMemory),
    }
}

/// The first edge that meets no rule.
fn first_against(faces: &Faces, sides: &Sides, labelling: &Labelling) -> Option<EdgeName>
    requires table { IsTableOf faces.now sides.now }
    requires shape { HasShape faces.now labelling.now }
    ensures some { IfSome result (λ edge. IsFirstAgainstRules faces.now sides.now labelling.now edge.0) }
    ensures none { IfNone result ((k : ℕ) → k < length sides.now → EntryMeetsRule faces.now sides.now labelling.now k) }
{
    for edge in 0..sides.len() {
        if !edge_meets_rule(faces, sides, labelling, EdgeName(edge)) {
            return Some(EdgeName(edge));
        }
    }
    None
}

/// Whether an edge has two sides that meet one of the rules.
fn edge_meets_rule(faces: &Faces, sides: &Sides, labelling: &Labelling, edge: EdgeName) -> bool
    requires table { IsTableOf faces.now sides.now }
    requires shape { HasShape faces.now labelling.now }
    requires edge { edge.0 < length sides.now }
    ensures { IsTrue result ↔ EntryMeetsRule faces.now sides.now labelling.now edge.0 }
{
    if sides.sides_of(edge) != 2 {
        return false;
    }
    let side = sides.side(edge, 0);
    let other = sides.side(edge, 1);
    sides_meet_rule(faces, labelling, side, other)
}
