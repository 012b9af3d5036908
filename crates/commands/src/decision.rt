//! The words for decisions.
ghost use Rattle.std.specs.Prelude.{◌≡◌};
ghost use Rattle.commands.specs.Certificates.{decision_line, decision_word};

use crate::line::{Line, Phrase};
use surf_model::Answer;

/// The line of a decision.
pub fn line_of(decision: Answer) -> Line
    ensures { result ≡ decision_line decision }
{
    Line::of(Phrase::Text(word_of(decision)), &[])
}

/// The word of a decision.
pub fn word_of(decision: Answer) -> &'static str
    ensures { result.now ≡ decision_word decision }
{
    match decision {
        Answer::Homotopic => "homotopic",
        Answer::Different => "different",
    }
}
