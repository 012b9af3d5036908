//! How large a surface and two walks of it may be, for a command that makes lists of moves.
ghost use Rattle.std.specs.Prelude.{◌≡◌, ℕ, List, Some, None, MatchResult};
ghost use Rattle.commands.specs.Answers.{Exactly};
ghost use Rattle.commands.specs.Limits.{first_over, limit_line, over_line};
ghost use Rattle.commands.specs.Stops.{Tells};

use crate::line::Phrase;
use crate::refusal::refused;
use crate::stop::Stop;
use surf_model::{Faces, Walk};

/// The most sides of a surface, and the most darts of two walks of it together.
#[derive(Clone, Copy, Debug)]
pub struct Limits {
    pub sides: u32,
    pub darts: u32,
}

/// What is over its limit, and its number.
#[derive(Clone, Copy, Debug, PartialEq, Eq)]
pub enum OverLimit {
    /// The surface has so many sides.
    Sides(u32),
    /// The two walks together have so many darts.
    Darts(u32),
}

impl Limits {
    /// What of a surface and two walks of it is first over its limit: the sides, and then the darts.
    pub fn first_over(self, faces: &Faces, first: &Walk, second: &Walk) -> Option<OverLimit>
        ensures { result ≡ first_over self faces.now first.now second.now }
    {
        let sides = faces.total();
        if sides > self.sides {
            return Some(OverLimit::Sides(sides));
        }
        let darts = first.darts() + second.darts();
        if darts > self.darts {
            return Some(OverLimit::Darts(darts));
        }
        None
    }

    /// Checks that a surface and two walks of it are not too large. A refusal begins with the word.
    pub fn check(
        self,
        word: &'static str,
        faces: &Faces,
        first: &Walk,
        second: &Walk,
    ) -> Result<(), Stop>
        ensures { MatchResult result (λ _. limit_line self word.now faces.now first.now second.now ≡ None)
            (λ stop. (line : List ℕ) × (limit_line self word.now faces.now first.now second.now ≡ Some line) × Tells (Exactly line) stop) }
    {
        match self.first_over(faces, first, second) {
            None => Ok(()),
            Some(over) => Err(over.refusal(word)),
        }
    }
}

impl OverLimit {
    /// The refusal for it, which begins with the word.
    fn refusal(self, word: &'static str) -> Stop
        ensures { Tells (Exactly (over_line word.now self)) result }
    {
        let (what, number) = match self {
            OverLimit::Sides(sides) => ("sides", sides),
            OverLimit::Darts(darts) => ("darts", darts),
        };
        refused(&[
            Phrase::Text(word),
            Phrase::Text(what),
            Phrase::Number(number as u64),
        ])
    }
}
