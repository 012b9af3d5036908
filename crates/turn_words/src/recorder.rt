//! Where the elementary steps are noted that rewrite a word.
ghost use Rattle.std.specs.Prelude.{◌≡◌, List, [], ◌∷◌, ◌++◌, Option, Some, None, OnOk, OnErr, IsOk};
ghost use Rattle.turn_words.specs.Recorded.{with_steps};
ghost use Rattle.turn_words.specs.declared.step.Step.{Step};

use crate::step::Step;
use std::alloc::{AllocError, Global};
use std::marker::Model;

/// Notes elementary steps, one after another.
pub trait Recorder {
    /// The steps noted so far, where the recorder tells them.
    ghost noted: { Self → Option (List Step) };

    /// Holds of a recorder that takes every step.
    ghost never_refuses: { Type 0 };

    /// Puts a step last. It is refused only for want of memory.
    fn note(&mut self, step: Step) -> Result<(), AllocError>
        ensures ok { OnOk result (noted self.new ≡ with_steps (noted self.old) (step ∷ [])) }
        ensures err { OnErr result (noted self.new ≡ noted self.old) }
        ensures sure { never_refuses → IsOk result };
}

/// Keeps no step, tells none and refuses none.
#[derive(Clone, Copy, Debug)]
pub struct Silent;

impl Recorder for Silent {
    ghost noted = { λ _. None };

    ghost never_refuses = { Unit {0} };

    fn note(&mut self, _step: Step) -> Result<(), AllocError>
        ensures { IsOk result }
    {
        Ok(())
    }
}

/// Keeps the steps in the order in which they were noted.
#[derive(Debug, Drop)]
pub struct Kept {
    steps: Vec<Step>,
}

impl Model for Kept {
    ghost use Rattle.std.specs.Prelude.{List};
    ghost use Rattle.turn_words.specs.declared.step.Step.{Step};

    ghost Value = { List Step };

    ghost view = { λ kept. kept.steps.items };
}

impl Kept {
    /// No steps. It takes no memory.
    pub fn new(alloc: Global) -> Kept
        ensures { result ≡ [] }
    {
        Kept {
            steps: Vec::new(alloc),
        }
    }

    /// The steps, the first noted first.
    pub fn steps(&self) -> &[Step]
        ensures { result.now ≡ self.now }
    {
        self.steps.as_slice()
    }
}

impl Recorder for Kept {
    ghost noted = { λ kept. Some kept };

    ghost never_refuses = { ⊥ };

    fn note(&mut self, step: Step) -> Result<(), AllocError> {
        self.steps.push(step)?;
        Ok(())
    }
}
