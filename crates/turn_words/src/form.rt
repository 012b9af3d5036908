//! Forms: how the word of a walk is kept, spoke by spoke.
ghost use Rattle.std.specs.Prelude.{◌≡◌, ℕ, ◌<◌, ◌↔◌, ⊤, List, length, IsTrue, OnOk};
ghost use Rattle.turn_words.specs.Recorded.{TellsMore};
ghost use Rattle.turn_words.specs.FormLaws.{StartsWell, StaysWell, ThereAndBack, AcrossQuads};
ghost use Rattle.turn_words.specs.declared.step.Step.{Step};

use crate::recorder::Recorder;
use crate::wheel::Wheel;
use std::alloc::AllocError;
use surf_model::Spoke;

/// The word of a walk in the form that a degree asks for, put together spoke by spoke.
///
/// Each form has wheels of its own, and states that belong to a wheel. The laws are said of states and of
/// where a spoke leads them, so no want of memory is in them.
pub trait Form {
    /// What two walks of one word share.
    ghost State: { Type 0 };

    /// The state that a form is in.
    ghost state: { Self → State };

    /// The state of the empty word.
    ghost empty: { State };

    /// The wheels, as lists of places, that the form is for.
    ghost IsOwn: { List ℕ → Type 0 };

    /// The states of a wheel.
    ghost Belongs: { List ℕ → State → Type 0 };

    /// The path stands at the vertex, and not in the middle of the polygon.
    ghost IsAtVertex: { State → Type 0 };

    /// A number that each spoke raises by one at most.
    ghost size: { State → ℕ };

    /// A spoke is put only where the size is below this number. So spokes whose count and the size make no
    /// more together can be put one after another.
    ghost limit: { ℕ };

    /// The state that a spoke put last leads to.
    ghost next: { List ℕ → State → ℕ → State };

    /// What the steps do that are noted where a spoke is put last.
    ghost Notes: { List ℕ → State → ℕ → List Step → Type 0 };

    /// Goes back to the state of the empty word.
    fn restart(&mut self)
        ensures { state self.new ≡ empty };

    /// Puts a spoke at the end, and notes how the word is rewritten. It is refused only for want of memory;
    /// after that the form is restarted before it is used again.
    fn act<R: Recorder>(
        &mut self,
        wheel: &Wheel,
        spoke: Spoke,
        recorder: &mut R,
    ) -> Result<(), AllocError>
        requires belongs { Belongs wheel.now (state self.old) }
        requires spoke { spoke.0 < length wheel.now }
        requires room { size (state self.old) < limit }
        ensures state { OnOk result (state self.new ≡ next wheel.now (state self.old) spoke.0) }
        ensures belongs { OnOk result (Belongs wheel.now (state self.new)) }
        ensures notes { OnOk result (TellsMore (Notes wheel.now (state self.old) spoke.0)
            (R.noted recorder.old) (R.noted recorder.new)) }

        // Where memory runs out some of the steps may have been noted.
        ensures kept { TellsMore (λ _. ⊤) (R.noted recorder.old) (R.noted recorder.new) };

    /// Tells whether two forms are in one state.
    fn same(&self, other: &Self) -> bool
        ensures { IsTrue result ↔ (state self.now ≡ state other.now) };

    /// The state of the empty word belongs to each own wheel, and is at the vertex.
    ghost starts: { StartsWell IsOwn Belongs IsAtVertex size empty };

    /// A spoke leads to a state of the same wheel, and two spokes lead from the vertex to the vertex.
    ghost stays: { StaysWell Belongs IsAtVertex size next };

    /// A spoke put twice in a row gives the state back.
    ghost there_and_back: { ThereAndBack Belongs next };

    /// From the vertex, the two sides of a quad give equal states.
    ghost across: { AcrossQuads Belongs IsAtVertex next };
}
