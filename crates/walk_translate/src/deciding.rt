//! Deciding homotopy.
ghost use Rattle.std.specs.Prelude.{◌≡◌, ◌↔◌, IfOk, MatchOption};
ghost use Rattle.halfedge_map.specs.OrientedMeshes.{IsOrientedSurface};
ghost use Rattle.surf_model.specs.Walks.{IsWalk, HaveCommonEnds};
ghost use Rattle.surf_model.specs.Moves.{Homotopic};
ghost use Rattle.walk_translate.specs.LabelledSurfaces.{IsWordUnder};
ghost use Rattle.walk_translate.specs.SurfaceLabels.{HasSphereSplit, IsLabelledByCut};

use crate::labels::label_by_cut;
use halfedge_map::Surface;
use labellings::{are_same_words, word_of};
use quad_system::GoodLabelling;
use std::alloc::{AllocError, Global};
use surf_model::{Answer, Walk};
use turn_words::{TurnWord, Word};

/// Decides whether two walks of a surface with common ends are homotopic.
///
/// On a sphere they always are. On every other surface their words are compared, under the labelling of a polygon into which
/// the surface is cut. A caller who asks of many pairs keeps a `Decider`.
pub fn decide(
    alloc: Global,
    surface: &Surface,
    first: &Walk,
    second: &Walk,
) -> Result<Answer, AllocError>
    requires first { IsWalk surface.now.mesh first.now }
    requires second { IsWalk surface.now.mesh second.now }
    requires ends { HaveCommonEnds first.now second.now }
    ensures { IfOk result (λ answer. (answer ≡ Answer.Homotopic) ↔ Homotopic surface.now.mesh first.now second.now) }
{
    let labels = label_by_cut(alloc, surface)?;
    answer_by(alloc, surface, &labels, first, second)
}

/// Decides by the labels of a cut; a sphere has none.
pub(crate) fn answer_by(
    alloc: Global,
    surface: &Surface,
    labels: &Option<GoodLabelling>,
    first: &Walk,
    second: &Walk,
) -> Result<Answer, AllocError>
    requires labels { MatchOption labels.now (HasSphereSplit surface.now) (IsLabelledByCut surface.now) }
    requires first { IsWalk surface.now.mesh first.now }
    requires second { IsWalk surface.now.mesh second.now }
    requires ends { HaveCommonEnds first.now second.now }
    ensures { IfOk result (λ answer. (answer ≡ Answer.Homotopic) ↔ Homotopic surface.now.mesh first.now second.now) }
{
    let one = word_by(alloc, surface, labels, first)?;
    let other = word_by(alloc, surface, labels, second)?;
    if are_same_words(&one, &other) {
        Ok(Answer::Homotopic)
    } else {
        Ok(Answer::Different)
    }
}

/// The word of a walk under the labels of a cut; on a sphere, which has none, that of no turns.
pub(crate) fn word_by(
    alloc: Global,
    surface: &Surface,
    labels: &Option<GoodLabelling>,
    walk: &Walk,
) -> Result<Word, AllocError>
    requires labels { MatchOption labels.now (HasSphereSplit surface.now) (IsLabelledByCut surface.now) }
    requires walk { IsWalk surface.now.mesh walk.now }
    ensures word { IfOk result (IsWordUnder (record { surface = surface.now; labels = labels.now }) walk.now) }
    // What holds of every surface.
    ensures oriented { IsOrientedSurface surface.now }
{
    let faces = surface.faces();
    let sides = surface.sides();
    let Some(good) = labels else {
        return Ok(Word::Turns(TurnWord::new(alloc)));
    };
    word_of(alloc, faces, sides, good, walk)
}
