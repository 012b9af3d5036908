//! The spokes of one dart.
ghost use Rattle.std.specs.Prelude.{◌≡◌, ℕ, ◌<◌, [], ◌∷◌, length, MatchOption};
ghost use Rattle.surf_model.specs.Edges.{IsTableOf, HasEnds, edge_in};
ghost use Rattle.labellings.specs.GoodLabellings.{IsGood};
ghost use Rattle.labellings.specs.QuadPaths.{spokes, spokes_by_labels};

use crate::labelling::Labelling;
use crate::rules::{LabelledSide, follows_tree, labelled};
use surf_model::{EdgeName, Faces, Sides, Spoke, VertexName};

/// The spokes of the dart along an edge from one of its ends to the other, by the two sides of the edge.
pub(crate) fn spokes_between(
    faces: &Faces,
    sides: &Sides,
    labelling: &Labelling,
    edge: EdgeName,
    from: VertexName,
) -> Option<(Spoke, Spoke)>
    requires table { IsTableOf faces.now sides.now }
    requires good { IsGood faces.now labelling.now }
    requires edge { edge.0 < length sides.now }
    ensures { (to : ℕ) → HasEnds from.0 to (edge_in sides.now edge.0)
        → MatchOption result (spokes faces.now labelling.now from.0 to ≡ [])
        (λ pair. spokes faces.now labelling.now from.0 to ≡ pair.0.0 ∷ pair.1.0 ∷ []) }
{
    // The proof reads what holds of every mesh.
    let _ = faces.len();
    let one = labelled(faces, labelling, sides.side(edge, 0));
    let two = labelled(faces, labelling, sides.side(edge, 1));
    if one.tail == from {
        spokes_along(one, two)
    } else {
        spokes_along(two, one)
    }
}

/// The spokes of a dart along a side, where another runs against it.
fn spokes_along(side: LabelledSide, other: LabelledSide) -> Option<(Spoke, Spoke)>
    ensures { MatchOption result
        (spokes_by_labels side.tail_label side.head_label other.tail_label other.head_label ≡ [])
        (λ pair. spokes_by_labels side.tail_label side.head_label other.tail_label other.head_label
        ≡ pair.0.0 ∷ pair.1.0 ∷ []) }
{
    if follows_tree(side, other) {
        None
    } else {
        Some((Spoke(side.tail_label), Spoke(side.head_label)))
    }
}
