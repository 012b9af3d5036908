//! The search for coherent signs, from face to face across the edges.
ghost use Rattle.std.specs.Prelude.{◌≡◌, ℕ, ◌<◌, true, false, [], ◌∷◌, length, OnOk, IfOk, IfSome, IfNone};
ghost use Rattle.surf_model.specs.Edges.{IsTableOf};
ghost use Rattle.surf_model.specs.Surfaces.{ArePartners, IsCoherent};
ghost use Rattle.orientation.specs.Classes.{EachEdgeHasAtMostTwoSides, IsLeastKept};
ghost use Rattle.orientation.specs.Trees.{Fit, AreTrees, is_seen};
ghost use Rattle.orientation.specs.Searches.{IsSearch, GrowthGoesOn, Extends, IsTear};

use crate::across::{across, run_alike};
use crate::trees::{Place, Trees};
use crate::waiting::{Order, Waiting};
use std::alloc::{AllocError, Global};
use surf_model::{FaceName, Faces, Side, Sides};

/// The two sides of an edge at which the signs of two faces do not fit.
#[derive(Clone, Copy, Debug, PartialEq, Eq)]
pub(crate) struct Tear {
    pub side: Side,
    pub other: Side,
}

/// Goes across an edge from a face that was seen. A face that was not seen before joins the tree, with the sign
/// that fits. Whether the signs of the two faces fit then.
fn cross(
    trees: &mut Trees,
    waiting: &mut Waiting,
    faces: &Faces,
    side: Side,
    other: Side,
) -> Result<bool, AllocError>
    requires search { IsSearch faces.now trees.old (side.face ∷ waiting.old) }
    requires partners { ArePartners faces.now side other }
    ensures search { OnOk result (IsSearch faces.now trees.new (side.face ∷ waiting.new)) }
    ensures goes_on { OnOk result (GrowthGoesOn trees.old waiting.old trees.new waiting.new) }
    ensures fits { IfOk result (λ fits. fits ≡ true
        → (is_seen trees.new other.face.0 ≡ true) × Fit faces.now trees.new.flipped side other) }
    ensures torn { IfOk result (λ fits. fits ≡ false → IsTear faces.now trees.new (record { side = side; other = other })) }
{
    let fitting = trees.flipped(side.face) != run_alike(faces, side, other);
    if trees.seen(other.face) {
        return Ok(trees.flipped(other.face) == fitting);
    }
    let place = Place {
        depth: trees.place(side.face).depth + 1,
        from: side,
    };
    waiting.push(other.face)?;
    trees.put(other.face, fitting, place);
    Ok(true)
}

/// Goes across all edges of a face that waited.
fn explore(
    trees: &mut Trees,
    waiting: &mut Waiting,
    faces: &Faces,
    sides: &Sides,
    face: FaceName,
) -> Result<Option<Tear>, AllocError>
    requires table { IsTableOf faces.now sides.now }
    requires two { EachEdgeHasAtMostTwoSides faces.now }
    requires search { IsSearch faces.now trees.old (face ∷ waiting.old) }
    ensures trees { OnOk result (AreTrees faces.now trees.new) }
    ensures goes_on { OnOk result (GrowthGoesOn trees.old waiting.old trees.new waiting.new) }
    ensures search { IfOk result (λ tear. IfNone tear (IsSearch faces.now trees.new waiting.new)) }
    ensures torn { IfOk result (λ tear. IfSome tear (IsTear faces.now trees.new)) }
{
    for at in 0..faces.sides(face) {
        let side = Side { face, at };
        if let Some(other) = across(faces, sides, side) {
            if !cross(trees, waiting, faces, side, other)? {
                return Ok(Some(Tear { side, other }));
            }
        }
    }
    Ok(None)
}

/// Grows the tree of a face, which is the least one that was not seen.
fn grow(
    trees: &mut Trees,
    waiting: &mut Waiting,
    faces: &Faces,
    sides: &Sides,
    root: FaceName,
) -> Result<Option<Tear>, AllocError>
    requires table { IsTableOf faces.now sides.now }
    requires two { EachEdgeHasAtMostTwoSides faces.now }
    requires search { IsSearch faces.now trees.old [] }
    requires none_waits { waiting.old ≡ [] }
    requires face { root.0 < length faces.now.faces }
    requires not_seen { is_seen trees.old root.0 ≡ false }
    requires least { (f : ℕ) → f < root.0 → is_seen trees.old f ≡ true }
    ensures trees { OnOk result (AreTrees faces.now trees.new) }
    ensures extends { OnOk result (Extends trees.old trees.new) }
    ensures seen { OnOk result (is_seen trees.new root.0 ≡ true) }
    ensures search { IfOk result (λ tear. IfNone tear (IsSearch faces.now trees.new [])) }
    ensures none_waits { IfOk result (λ tear. IfNone tear (waiting.new ≡ [])) }
    ensures torn { IfOk result (λ tear. IfSome tear (IsTear faces.now trees.new)) }
{
    let place = Place {
        depth: 0,
        from: Side { face: root, at: 0 },
    };
    waiting.push(root)?;
    trees.put(root, false, place);
    while let Some(face) = waiting.take() {
        if let Some(tear) = explore(trees, waiting, faces, sides, face)? {
            return Ok(Some(tear));
        }
    }
    Ok(None)
}

/// What a search ends with: trees of all faces, or of some and a tear.
#[derive(Debug, Drop)]
pub(crate) struct Found {
    pub trees: Trees,
    pub tear: Option<Tear>,
}

/// Goes through all faces, and gives signs on the way, until two do not fit.
pub(crate) fn search(
    alloc: Global,
    faces: &Faces,
    sides: &Sides,
    order: Order,
) -> Result<Found, AllocError>
    requires table { IsTableOf faces.now sides.now }
    requires two { EachEdgeHasAtMostTwoSides faces.now }
    ensures trees { IfOk result (λ found. AreTrees faces.now found.trees) }
    ensures torn { IfOk result (λ found. IfSome found.tear (IsTear faces.now found.trees)) }
    ensures coherent { IfOk result (λ found. IfNone found.tear (IsCoherent faces.now found.trees.flipped)) }
    ensures least_kept { IfOk result (λ found. IfNone found.tear (IsLeastKept faces.now found.trees.flipped)) }
{
    let mut trees = Trees::new(alloc, faces.len())?;
    let mut waiting = Waiting::new(alloc, order);
    for face in 0..faces.len() {
        let root = FaceName(face);
        if !trees.seen(root) {
            if let Some(tear) = grow(&mut trees, &mut waiting, faces, sides, root)? {
                return Ok(Found {
                    trees,
                    tear: Some(tear),
                });
            }
        }
    }
    Ok(Found { trees, tear: None })
}
