//! The rules of one edge.
ghost use Rattle.std.specs.Prelude.{◌≡◌, ◌<◌, ◌≤◌, ◌↔◌, true, false, All, length, IsTrue};
ghost use Rattle.surf_model.specs.Darts.{IsSide};
ghost use Rattle.surf_model.specs.Surfaces.{start_under, end_under};
ghost use Rattle.turn_words.specs.Modulo.{add, minus};
ghost use Rattle.labellings.specs.Labellings.{labels_at, signs_of, tail_label, head_label};
ghost use Rattle.labellings.specs.GoodLabellings.{HasShape, MeetsTreeRule, MeetsCotreeRule, MeetsLeftoverRule, SidesMeetRule};

use crate::labelling::Labelling;
use surf_model::{Faces, Side, VertexName};

/// A side with its face turned round as its sign says: its ends, and the labels there.
#[derive(Clone, Copy)]
pub(crate) struct LabelledSide {
    pub(crate) tail: VertexName,
    pub(crate) head: VertexName,
    pub(crate) tail_label: u32,
    pub(crate) head_label: u32,
}

/// A side under the signs and labels.
pub(crate) fn labelled(faces: &Faces, labelling: &Labelling, side: Side) -> LabelledSide
    requires side { IsSide faces.now side }
    requires shape { HasShape faces.now labelling.now }
    ensures tail { result.tail.0 ≡ start_under faces.now (signs_of labelling.now) side }
    ensures head { result.head.0 ≡ end_under faces.now (signs_of labelling.now) side }
    ensures tail_label { result.tail_label ≡ tail_label faces.now labelling.now side }
    ensures head_label { result.head_label ≡ head_label faces.now labelling.now side }
    ensures tail_below { result.tail_label < labelling.now.degree }
    ensures head_below { result.head_label < labelling.now.degree }
{
    let after = faces.after(side);
    let here = faces.corner(side.face, side.at);
    let there = faces.corner(after.face, after.at);
    let label_here = labelling.label(side.face, side.at);
    let label_there = labelling.label(after.face, after.at);
    if labelling.flipped(side.face) {
        LabelledSide {
            tail: there,
            head: here,
            tail_label: label_there,
            head_label: label_here,
        }
    } else {
        LabelledSide {
            tail: here,
            head: there,
            tail_label: label_here,
            head_label: label_there,
        }
    }
}

/// Whether two sides run oppositely, and their labels meet one of the rules.
pub(crate) fn sides_meet_rule(faces: &Faces, labelling: &Labelling, side: Side, other: Side) -> bool
    requires side { IsSide faces.now side }
    requires other { IsSide faces.now other }
    requires shape { HasShape faces.now labelling.now }
    ensures { IsTrue result ↔ SidesMeetRule faces.now labelling.now side other }
{
    let one = labelled(faces, labelling, side);
    let two = labelled(faces, labelling, other);
    one.tail == two.head
        && one.head == two.tail
        && (follows_tree(one, two)
            || follows_cotree(one, two)
            || follows_leftover(labelling, one, two))
}

/// Along the one side and along the other the label stays.
pub(crate) fn follows_tree(one: LabelledSide, two: LabelledSide) -> bool
    ensures { IsTrue result ↔ MeetsTreeRule one.tail_label one.head_label two.tail_label two.head_label }
{
    one.tail_label == one.head_label && two.tail_label == two.head_label
}

/// Across the edge the labels are the same.
fn follows_cotree(one: LabelledSide, two: LabelledSide) -> bool
    ensures { IsTrue result ↔ MeetsCotreeRule one.tail_label one.head_label two.tail_label two.head_label }
{
    one.tail_label == two.head_label && one.head_label == two.tail_label
}

/// Along both sides the label rises by one, and their spokes are the two sides of a quad.
fn follows_leftover(labelling: &Labelling, one: LabelledSide, two: LabelledSide) -> bool
    requires one_tail { one.tail_label < labelling.now.degree }
    requires one_head { one.head_label < labelling.now.degree }
    requires two_tail { two.tail_label < labelling.now.degree }
    requires two_head { two.head_label < labelling.now.degree }
    requires each_spoke { length labelling.now.places ≡ labelling.now.degree }
    requires places { All (λ place. place < labelling.now.degree) labelling.now.places }
    ensures { IsTrue result
        ↔ MeetsLeftoverRule labelling.now.places one.tail_label one.head_label two.tail_label two.head_label }
{
    let degree = labelling.degree();
    one.head_label == one_more(degree, one.tail_label)
        && two.head_label == one_more(degree, two.tail_label)
        && labelling.place(two.head_label) == one_less(degree, labelling.place(one.tail_label))
        && labelling.place(one.head_label) == one_less(degree, labelling.place(two.tail_label))
}

/// One more than a number below the degree, modulo the degree.
pub(crate) fn one_more(degree: u32, number: u32) -> u32
    requires { number < degree }
    ensures sum { result ≡ add degree number 1 }
    ensures below { result < degree }
{
    if number + 1 < degree { number + 1 } else { 0 }
}

/// One less than a number below the degree, modulo the degree.
fn one_less(degree: u32, number: u32) -> u32
    requires { number < degree }
    ensures { result ≡ add degree number (minus degree 1) }
{
    if number == 0 { degree - 1 } else { number - 1 }
}
