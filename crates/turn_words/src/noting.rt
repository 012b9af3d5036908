//! The steps of a put, noted one after another.
ghost use Rattle.std.specs.Prelude.{◌≡◌, ◌+◌, ◌<◌, ◌≤◌, ◌^◌, Bool, IsOk, OnOk, ⊤};
ghost use Rattle.turn_words.specs.Recorded.{with_steps, TellsMore};
ghost use Rattle.turn_words.specs.Private.PutSteps.{pushes, rewrite_steps, StoodIn};

use crate::put::Rewrite;
use crate::recorder::Recorder;
use crate::step::Step;
use std::alloc::AllocError;

/// Notes the steps of a put at the end of a word with so many entries.
pub(crate) fn note_rewrite<R: Recorder>(
    len: u32,
    rewrite: Rewrite,
    recorder: &mut R,
) -> Result<(), AllocError>
    requires { StoodIn len rewrite }
    ensures noted { OnOk result (R.noted recorder.new ≡ with_steps (R.noted recorder.old) (rewrite_steps len rewrite)) }
    ensures kept { TellsMore (λ _. ⊤) (R.noted recorder.old) (R.noted recorder.new) }
    ensures sure { R.never_refuses → IsOk result }
{
    match rewrite {
        Rewrite::Plain => Ok(()),
        Rewrite::Spur => recorder.note(Step::SpurOut { at: len - 1 }),
        Rewrite::Flip(twos) => note_pushes(len - 1, twos + 1, true, recorder),
        Rewrite::Close(twos) => {
            note_pushes(len - 1, twos + 1, false, recorder)?;
            recorder.note(Step::SpurOut { at: len - 2 - twos })
        }
    }
}

/// Notes pushes at a place and at those before it, the last place first.
fn note_pushes<R: Recorder>(
    last: u32,
    count: u32,
    up: bool,
    recorder: &mut R,
) -> Result<(), AllocError>
    requires { count ≤ last + 1 }
    ensures noted { OnOk result (R.noted recorder.new ≡ with_steps (R.noted recorder.old) (pushes up last count)) }
    ensures kept { TellsMore (λ _. ⊤) (R.noted recorder.old) (R.noted recorder.new) }
    ensures sure { R.never_refuses → IsOk result }
{
    for k in 0..count {
        recorder.note(Step::Push { at: last - k, up })?;
    }
    Ok(())
}
