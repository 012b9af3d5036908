//! Whether a denial holds.
ghost use Rattle.std.specs.Prelude.{◌≡◌, ◌≢◌, ◌↔◌, IsTrue, IfOk};
ghost use Rattle.surf_model.specs.Edges.{IsTableOf};
ghost use Rattle.surf_model.specs.Walks.{IsWalk};
ghost use Rattle.labellings.specs.GoodLabellings.{IsGood};
ghost use Rattle.labellings.specs.WalkWords.{IsWordOf};
ghost use Rattle.labellings.specs.DenialVerdicts.{IsDenialVerdict};
ghost use Rattle.labellings.specs.declared.verdict.DenialVerdict.{DenialVerdict};

use crate::check::check_labelling;
use crate::denial::Denial;
use crate::fault::LabelFault;
use crate::good::GoodLabelling;
use crate::word::{are_same_words, word_of};
use std::alloc::{AllocError, Global};
use surf_model::{Faces, Sides, Walk};
use turn_words::Word;

/// What comes of checking a denial.
#[derive(Clone, Copy, Debug, PartialEq, Eq)]
pub enum DenialVerdict {
    /// The labelling is not good for the mesh, for this rule. It is never for want of memory.
    Label(LabelFault),
    /// The labelling is good, and the word of this walk is not that of the denial. Walks are counted from 1.
    WordWrong { walk: u32 },
    /// Both words are right, and they are equal.
    Equal,
    /// The denial holds.
    Accepted,
}

/// Checks a denial of whatever origin: its labelling, the word of the first walk, that of the second, and that they
/// differ. The verdict is the first of these that fails. Where it is accepted, no list of moves leads from the first walk
/// to the second.
pub fn check_denial(
    alloc: Global,
    faces: &Faces,
    sides: &Sides,
    first: &Walk,
    second: &Walk,
    denial: Denial,
) -> Result<DenialVerdict, AllocError>
    requires table { IsTableOf faces.now sides.now }
    requires first { IsWalk faces.now first.now }
    requires second { IsWalk faces.now second.now }
    ensures verdict { IfOk result (IsDenialVerdict faces.now first.now second.now denial) }
    // So each verdict comes exactly where it is the first: a denial that holds is accepted.
    ensures exact { (verdict : DenialVerdict) → IsDenialVerdict faces.now first.now second.now denial verdict
        → IfOk result (λ given. given ≡ verdict) }
{
    let Denial {
        labelling,
        first: first_word,
        second: second_word,
    } = denial;
    let good = match check_labelling(alloc, faces, sides, labelling) {
        Ok(good) => good,
        Err(fault) => return verdict_on_labels(fault),
    };
    let on = LabelledMesh {
        faces,
        sides,
        good: &good,
    };
    if !has_word(alloc, &on, first, &first_word)? {
        return Ok(DenialVerdict::WordWrong { walk: 1 });
    }
    if !has_word(alloc, &on, second, &second_word)? {
        return Ok(DenialVerdict::WordWrong { walk: 2 });
    }
    if are_same_words(&first_word, &second_word) {
        return Ok(DenialVerdict::Equal);
    }
    Ok(DenialVerdict::Accepted)
}

/// The verdict where a labelling is not good.
fn verdict_on_labels(fault: LabelFault) -> Result<DenialVerdict, AllocError>
    ensures { IfOk result (λ verdict. (fault ≢ LabelFault.OutOfMemory) × (verdict ≡ DenialVerdict.Label fault)) }
{
    match fault {
        LabelFault::OutOfMemory => Err(AllocError),
        _ => Ok(DenialVerdict::Label(fault)),
    }
}

/// A mesh with its edge table, and a labelling that is good for it.
#[derive(Clone, Copy)]
struct LabelledMesh<'a> {
    faces: &'a Faces,
    sides: &'a Sides,
    good: &'a GoodLabelling,
}

/// Whether the word of a walk is this one.
fn has_word(
    alloc: Global,
    on: &LabelledMesh<'_>,
    walk: &Walk,
    word: &Word,
) -> Result<bool, AllocError>
    requires table { IsTableOf on.now.faces.now on.now.sides.now }
    requires good { IsGood on.now.faces.now on.now.good.now }
    requires walk { IsWalk on.now.faces.now walk.now }
    ensures { IfOk result (λ is. IsTrue is ↔ IsWordOf on.now.faces.now on.now.good.now walk.now word.now) }
{
    // The proof reads what holds of every mesh.
    let _ = on.faces.len();
    let own = word_of(alloc, on.faces, on.sides, on.good, walk)?;
    Ok(are_same_words(&own, word))
}
