//! The word of a walk, and whether two words are one.
ghost use Rattle.std.specs.Prelude.{◌≡◌, ◌≤◌, ◌↔◌, IsTrue, IfOk};
ghost use Rattle.surf_model.specs.Edges.{IsTableOf};
ghost use Rattle.surf_model.specs.Walks.{IsWalk};
ghost use Rattle.labellings.specs.GoodLabellings.{IsGood};
ghost use Rattle.labellings.specs.WalkWords.{IsWordOf};

use crate::folding::fold;
use crate::good::GoodLabelling;
use flat_forms::Flat;
use std::alloc::{AllocError, Global};
use surf_model::{Faces, Sides, Walk};
use turn_words::{Hyper, Silent, TurnWord, Word};

/// The word of a walk under a good labelling: for four spokes its end in the plane, for more a canonical turn word.
pub fn word_of(
    alloc: Global,
    faces: &Faces,
    sides: &Sides,
    good: &GoodLabelling,
    walk: &Walk,
) -> Result<Word, AllocError>
    requires table { IsTableOf faces.now sides.now }
    requires good { IsGood faces.now good.now }
    requires walk { IsWalk faces.now walk.now }
    ensures { IfOk result (IsWordOf faces.now good.now walk.now) }
{
    if good.labelling().degree() == 4 {
        end_in_plane(faces, sides, good, walk)
    } else {
        canonical_word(alloc, faces, sides, good, walk)
    }
}

/// Where the walk leads in the plane.
fn end_in_plane(
    faces: &Faces,
    sides: &Sides,
    good: &GoodLabelling,
    walk: &Walk,
) -> Result<Word, AllocError>
    requires table { IsTableOf faces.now sides.now }
    requires good { IsGood faces.now good.now }
    requires walk { IsWalk faces.now walk.now }
    requires four { good.now.degree ≡ 4 }
    ensures { IfOk result (IsWordOf faces.now good.now walk.now) }
{
    // The proof reads what holds of every walk.
    let _ = walk.darts();
    let mut form = Flat::new();
    fold(faces, sides, good, &mut form, walk, &mut Silent)?;
    Ok(Word::Flat {
        x: form.x(),
        y: form.y(),
    })
}

/// The canonical word of the turns of the walk's spokes. Room for two entries a dart is made at once.
fn canonical_word(
    alloc: Global,
    faces: &Faces,
    sides: &Sides,
    good: &GoodLabelling,
    walk: &Walk,
) -> Result<Word, AllocError>
    requires table { IsTableOf faces.now sides.now }
    requires good { IsGood faces.now good.now }
    requires walk { IsWalk faces.now walk.now }
    requires five { 5 ≤ good.now.degree }
    ensures { IfOk result (IsWordOf faces.now good.now walk.now) }
{
    let mut form = Hyper::new(alloc);
    form.reserve(2 * walk.darts())?;
    fold(faces, sides, good, &mut form, walk, &mut Silent)?;
    Ok(Word::Turns(form.word(alloc)?))
}

/// Tells whether two words are one.
pub fn are_same_words(one: &Word, other: &Word) -> bool
    ensures { IsTrue result ↔ (one.now ≡ other.now) }
{
    match (one, other) {
        (Word::Turns(one), Word::Turns(other)) => are_same_turns(one, other),
        (Word::Flat { x, y }, Word::Flat { x: right, y: up }) => x == right && y == up,
        _ => false,
    }
}

/// Tells whether two turn words are one.
fn are_same_turns(one: &TurnWord, other: &TurnWord) -> bool
    ensures { IsTrue result ↔ (one.now ≡ other.now) }
{
    if one.len() != other.len() {
        return false;
    }
    for k in 0..one.len() {
        if one.at(k) != other.at(k) {
            return false;
        }
    }
    true
}
