//! A parent for each face, by a search of the faces from all boundary edges, breadth first.
ghost use Rattle.std.specs.Prelude.{◌≡◌, ◌<◌, length, slice_index, OnOk, IfOk};
ghost use Rattle.surf_model.specs.FaceLists.{face_at};
ghost use Rattle.surf_model.specs.Edges.{IsTableOf};
ghost use Rattle.connectivity.specs.Joined.{NoEdgeHasThreeSides};
ghost use Rattle.free_forms.specs.OpenSurfaces.{IsOpenSurface};
ghost use Rattle.free_forms.specs.Parents.{HasFaceParents};
ghost use Rattle.free_forms.specs.Searches.{view_of_search, with_side, IsFaceReached, IsParentSearch, Grows};
ghost use Rattle.free_forms.specs.Searches.{NeighboursReached, IsClosedUpTo, IsStartedUpTo};

use std::alloc::{AllocError, Global};
use surf_model::{EdgeName, FaceName, Faces, Side, Sides};

/// The faces that a search has reached, and their parents.
#[derive(Drop)]
pub(crate) struct Search {
    /// The faces that are reached, in the order in which they were.
    order: Vec<u32>,
    /// For each face whether it is reached.
    reached: Vec<bool>,
    /// For each face that is reached the place of its parent.
    places: Vec<u32>,
}

/// For each face of an open surface the place of its parent: the side by which the search reaches it.
pub(crate) fn parent_places(
    alloc: Global,
    faces: &Faces,
    sides: &Sides,
) -> Result<Vec<u32>, AllocError>
    requires table { IsTableOf faces.now sides.now }
    requires surface { IsOpenSurface faces.now }
    ensures { IfOk result (λ places. HasFaceParents (record { mesh = faces.now; places = places.items })) }
{
    let count = faces.len() as usize;
    let mut search = Search {
        order: Vec::new(alloc),
        reached: vec![in alloc; false; count]?,
        places: vec![in alloc; 0u32; count]?,
    };
    start(&mut search, faces, sides)?;
    spread(&mut search, faces, sides)?;
    Ok(search.places)
}

/// Reaches the faces on the boundary, by rising boundary edge.
fn start(search: &mut Search, faces: &Faces, sides: &Sides) -> Result<(), AllocError>
    requires table { IsTableOf faces.now sides.now }
    requires search { IsParentSearch faces.now (view_of_search search.old) }
    ensures search { OnOk result (IsParentSearch faces.now (view_of_search search.new)) }
    ensures started { OnOk result (IsStartedUpTo sides.now (view_of_search search.new) (length sides.now)) }
{
    for edge in 0..sides.len() {
        if sides.sides_of(EdgeName(edge)) == 1 {
            reach(search, sides.side(EdgeName(edge), 0))?;
        }
    }
    Ok(())
}

/// Reaches all faces that steps across edges lead to.
fn spread(search: &mut Search, faces: &Faces, sides: &Sides) -> Result<(), AllocError>
    requires table { IsTableOf faces.now sides.now }
    requires few { NoEdgeHasThreeSides faces.now }
    requires search { IsParentSearch faces.now (view_of_search search.old) }
    ensures search { OnOk result (IsParentSearch faces.now (view_of_search search.new)) }
    ensures grows { OnOk result (Grows (view_of_search search.old) (view_of_search search.new)) }
    ensures closed { OnOk result (IsClosedUpTo faces.now (view_of_search search.new) (length search.new.order.items)) }
{
    let mut at = 0;
    while at < search.order.len() {
        let face = FaceName(search.order[at]);
        spread_from(search, faces, sides, face)?;
        at += 1;
    }
    Ok(())
}

/// Reaches the faces across the sides of a face.
fn spread_from(
    search: &mut Search,
    faces: &Faces,
    sides: &Sides,
    face: FaceName,
) -> Result<(), AllocError>
    requires table { IsTableOf faces.now sides.now }
    requires few { NoEdgeHasThreeSides faces.now }
    requires search { IsParentSearch faces.now (view_of_search search.old) }
    requires face { IsFaceReached (view_of_search search.old) face.0 }
    ensures search { OnOk result (IsParentSearch faces.now (view_of_search search.new)) }
    ensures grows { OnOk result (Grows (view_of_search search.old) (view_of_search search.new)) }
    ensures reached { OnOk result (NeighboursReached faces.now (view_of_search search.new) face.0 (length (face_at faces.now face.0))) }
{
    for at in 0..faces.sides(face) {
        // On the boundary this is the side itself, whose face is reached.
        let other = sides.other(faces.dart(Side { face, at }));
        reach(search, faces.side_at(other))?;
    }
    Ok(())
}

/// Reaches the face of a side by that side, if it was not reached before.
fn reach(search: &mut Search, side: Side) -> Result<(), AllocError>
    requires mark { side.face.0 < length search.old.reached.items }
    requires place { side.face.0 < length search.old.places.items }
    ensures { OnOk result (view_of_search search.new ≡ with_side (view_of_search search.old) side) }
{
    let face = side.face.0 as usize;
    if search.reached[face] {
        return Ok(());
    }
    search.order.push(side.face.0)?;
    search.reached[face] = true;
    search.places[face] = side.at;
    Ok(())
}
