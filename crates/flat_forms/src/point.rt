//! The form with one state.
ghost use Rattle.std.specs.Prelude.{◌≡◌, ◌<◌, length, IsOk, IsTrue};
ghost use Rattle.turn_words.specs.Wheels.{IsWheel};

use std::alloc::AllocError;
use surf_model::Spoke;
use turn_words::{Form, Recorder, Wheel};

/// The form under which all words are equal, as they are over the degree 0.
#[derive(Clone, Copy, Debug)]
pub struct Point;

impl Point {
    /// The form in its one state.
    pub fn new() -> Point {
        Point
    }
}

impl Form for Point {
    ghost use Rattle.std.specs.Prelude.{◌≡◌, ◌^◌, []};
    ghost use Rattle.turn_words.specs.Wheels.{IsWheel};
    ghost use Rattle.flat_forms.specs.Lemmas.PointLaws.{point_starts, point_stays, point_there_and_back, point_across};

    ghost State = { Unit {0} };

    ghost state = { λ _. tt };

    ghost empty = { tt };

    ghost IsOwn = { IsWheel };

    ghost Belongs = { λ places _. IsWheel places };

    ghost IsAtVertex = { λ _. Unit {0} };

    ghost size = { λ _. 0 };

    ghost limit = { 2 ^ 64 };

    ghost next = { λ _ _ _. tt };

    ghost Notes = { λ _ _ _ steps. steps ≡ [] };

    ghost starts = { point_starts };

    ghost stays = { point_stays };

    ghost there_and_back = { point_there_and_back };

    ghost across = { point_across };

    fn restart(&mut self) {}

    fn act<R: Recorder>(
        &mut self,
        _wheel: &Wheel,
        _spoke: Spoke,
        _recorder: &mut R,
    ) -> Result<(), AllocError>
        requires belongs { IsWheel _wheel.now }
        ensures sure { IsOk result }
        ensures silent { _recorder.new ≡ _recorder.old }
    {
        Ok(())
    }

    fn same(&self, _other: &Self) -> bool {
        true
    }
}
