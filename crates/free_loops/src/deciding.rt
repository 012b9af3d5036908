//! Deciding free homotopy.
ghost use Rattle.std.specs.Prelude.{◌≡◌, ◌↔◌, IfOk, MatchOption};
ghost use Rattle.closed_walks.specs.FreeHomotopy.{IsClosedWalk, FreelyHomotopic};
ghost use Rattle.walk_translate.specs.SurfaceLabels.{HasSphereSplit, IsLabelledByCut};

use crate::word::{are_same_free_words, free_word};
use halfedge_map::Surface;
use labellings::GoodLabelling;
use std::alloc::{AllocError, Global};
use surf_model::Walk;
use walk_translate::label_by_cut;

/// Whether one closed walk can be moved onto another with no vertex held fast.
#[derive(Clone, Copy, Debug, PartialEq, Eq)]
pub enum FreeAnswer {
    /// Some list of moves and of changes of the starting vertex leads from the first walk to the second.
    Freely,
    /// No such list does.
    NotFreely,
}

/// Decides whether two closed walks of a surface are freely homotopic.
///
/// Their free words are compared, under the labelling of a polygon into which the surface is cut.
pub fn decide_free(
    alloc: Global,
    surface: &Surface,
    first: &Walk,
    second: &Walk,
) -> Result<FreeAnswer, AllocError>
    requires first { IsClosedWalk surface.now.mesh first.now }
    requires second { IsClosedWalk surface.now.mesh second.now }
    ensures { IfOk result (λ answer. (answer ≡ FreeAnswer.Freely) ↔ FreelyHomotopic surface.now.mesh first.now second.now) }
{
    let labels = label_by_cut(alloc, surface)?;
    let answer = decide_labelled(alloc, surface, &labels, first, second);
    // By a call, which is proved once, and not here again.
    drop(labels);
    answer
}

/// The same on a surface that is labelled already; a sphere has no labels.
pub fn decide_labelled(
    alloc: Global,
    surface: &Surface,
    labels: &Option<GoodLabelling>,
    first: &Walk,
    second: &Walk,
) -> Result<FreeAnswer, AllocError>
    requires labels { MatchOption labels.now (HasSphereSplit surface.now) (IsLabelledByCut surface.now) }
    requires first { IsClosedWalk surface.now.mesh first.now }
    requires second { IsClosedWalk surface.now.mesh second.now }
    ensures { IfOk result (λ answer. (answer ≡ FreeAnswer.Freely) ↔ FreelyHomotopic surface.now.mesh first.now second.now) }
{
    let one = free_word(alloc, surface, labels, first)?;
    let other = free_word(alloc, surface, labels, second)?;
    if are_same_free_words(&one, &other) {
        Ok(FreeAnswer::Freely)
    } else {
        Ok(FreeAnswer::NotFreely)
    }
}
