//! Answers on pairs of walks, each of which is looked at while it is decided on.
ghost use Rattle.std.specs.Prelude.{◌≡◌, ◌↔◌, ℕ, List, IfOk, IsTrue, MatchOption};
ghost use Rattle.surf_model.specs.FaceLists.{FaceList};
ghost use Rattle.surf_model.specs.Moves as moves;
ghost use Rattle.homotopy_arrays.specs.Pairs.{AreAnswers, AreWalks, are_pairs};

use crate::decide::PairAnswer;
use crate::pair::{fault_of, length_fault, walk_of};
use compact_surfaces::CompactSurface;
use std::alloc::{AllocError, Global};
use walk_translate::Answer;

/// What is answered of two walks.
pub trait WalkAnswer {
    /// On which compact surfaces.
    ghost On: { FaceList → Type 0 };

    /// When it is the answer.
    ghost Is: { FaceList → (first second : List ℕ) → Self → Type 0 };

    /// Whether a surface is one of these.
    fn is_told_on(surface: &CompactSurface) -> bool
        ensures { IsTrue result ↔ On surface.now };

    /// The answer on two walks.
    fn answer_walks(
        alloc: Global,
        surface: &mut CompactSurface,
        first: &[u32],
        second: &[u32],
    ) -> Result<Self, AllocError>
        requires { On surface.old }
        ensures same { surface.new ≡ surface.old }
        ensures answer { IfOk result (Is surface.old first.now second.now) };
}

/// The answer on each pair of walks that have these sizes and vertices.
pub(crate) fn answer_all<A: WalkAnswer + Copy>(
    alloc: Global,
    surface: &mut CompactSurface,
    sizes: &[u32],
    vertices: &[u32],
) -> Result<Vec<A>, AllocError>
    requires on { A.On surface.old }
    requires pairs { IsTrue (are_pairs sizes.now vertices.now) }
    ensures same { surface.new ≡ surface.old }
    ensures answers { IfOk result (λ answers. AreAnswers (A.Is surface.old) sizes.now vertices.now answers.items) }
{
    let count = sizes.len() / 2;
    let mut answers = Vec::with_capacity(alloc, count)?;
    let mut at = 0;
    for pair in 0..count {
        let middle = at + sizes[2 * pair] as usize;
        let end = middle + sizes[2 * pair + 1] as usize;
        let first = &vertices[at..middle];
        let second = &vertices[middle..end];
        let answer = A::answer_walks(alloc, surface, first, second)?;
        answers.push(answer)?;
        at = end;
    }
    Ok(answers)
}

impl WalkAnswer for PairAnswer {
    ghost use Rattle.compact_surfaces.specs.CompactSurfaces.{IsCompactSurface};
    ghost use Rattle.homotopy_arrays.specs.Pairs.{IsAnswer};

    ghost On = { IsCompactSurface };

    ghost Is = { IsAnswer };

    fn is_told_on(surface: &CompactSurface) -> bool {
        // The proof reads what holds of every compact surface.
        let _ = surface.sides();
        true
    }

    /// They are looked at for what is first wrong only where they are no pair.
    fn answer_walks(
        alloc: Global,
        surface: &mut CompactSurface,
        first: &[u32],
        second: &[u32],
    ) -> Result<PairAnswer, AllocError> {
        match answer_if_walks(alloc, surface, first, second)? {
            Some(Answer::Homotopic) => Ok(PairAnswer::Homotopic),
            Some(Answer::Different) => Ok(PairAnswer::Different),
            None => Ok(PairAnswer::Faulty(fault_of(alloc, surface, first, second)?)),
        }
    }
}

/// Decides on two walks, or tells by `None` that they are no walks of the surface with common ends, or too long.
fn answer_if_walks(
    alloc: Global,
    surface: &mut CompactSurface,
    first: &[u32],
    second: &[u32],
) -> Result<Option<Answer>, AllocError>
    ensures same { surface.new ≡ surface.old }
    ensures answer { IfOk result (λ found. MatchOption found (AreWalks surface.old first.now second.now → ⊥)
        (λ answer. AreWalks surface.old first.now second.now
        × ((answer ≡ Answer.Homotopic) ↔ moves.Homotopic surface.old first.now second.now))) }
{
    if let Some(_fault) = length_fault(1, first) {
        return Ok(None);
    }
    if let Some(_fault) = length_fault(2, second) {
        return Ok(None);
    }
    let one = walk_of(alloc, first)?;
    let other = walk_of(alloc, second)?;
    let found = surface.answer_if_pair(&one, &other)?;
    Ok(found)
}
