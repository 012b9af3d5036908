//! The form for the degree 4.
ghost use Rattle.std.specs.Prelude.{◌≡◌, ◌<◌, ◌^◌, ◌↔◌, length, IsTrue, IsOk};
ghost use Rattle.flat_forms.specs.Vectors.{origin, unit_step};
ghost use Rattle.flat_forms.specs.FlatStates.{IsEvenPoint, IsFlatWheel, flat_next, size_of};

use std::alloc::AllocError;
use std::marker::Model;
use surf_model::Spoke;
use turn_words::{Form, Recorder, Wheel};

/// The end of a walk in the plane, in unit steps from its start.
#[derive(Debug, Drop)]
pub struct Flat {
    x: i64,
    y: i64,
}

impl Model for Flat {
    ghost use Rattle.flat_forms.specs.Vectors.{Vector};

    ghost Value = { Vector };

    ghost view = { λ flat. record { x = flat.x; y = flat.y } };
}

impl Flat {
    /// The form in the state of the empty word.
    pub fn new() -> Flat
        ensures { result ≡ origin }
    {
        Flat { x: 0, y: 0 }
    }

    /// How far the walk leads to the right.
    pub fn x(&self) -> i64
        ensures { result ≡ self.now.x }
    {
        self.x
    }

    /// How far the walk leads up.
    pub fn y(&self) -> i64
        ensures { result ≡ self.now.y }
    {
        self.y
    }

    /// Tells whether the walk stands at the vertex, and not in the middle of the polygon.
    fn is_at_vertex(&self) -> bool
        requires { size_of self.now < 2 ^ 62 }
        ensures { IsTrue result ↔ IsEvenPoint self.now }
    {
        (self.x + self.y).unsigned_abs() % 2 == 0
    }
}

impl Form for Flat {
    ghost use Rattle.std.specs.Prelude.{◌≡◌, ◌^◌, []};
    ghost use Rattle.flat_forms.specs.Vectors.{Vector, origin};
    ghost use Rattle.flat_forms.specs.FlatStates.{IsEvenPoint, IsFlatWheel, flat_next, size_of};
    ghost use Rattle.flat_forms.specs.Lemmas.FlatLaws.{flat_starts, flat_stays, flat_there_and_back, flat_across};

    ghost State = { Vector };

    ghost state = { λ flat. flat };

    ghost empty = { origin };

    ghost IsOwn = { IsFlatWheel };

    ghost Belongs = { λ places _. IsFlatWheel places };

    ghost IsAtVertex = { IsEvenPoint };

    ghost size = { size_of };

    ghost limit = { 2 ^ 62 };

    ghost next = { flat_next };

    ghost Notes = { λ _ _ _ steps. steps ≡ [] };

    ghost starts = { flat_starts };

    ghost stays = { flat_stays };

    ghost there_and_back = { flat_there_and_back };

    ghost across = { flat_across };

    fn restart(&mut self)
        ensures { self.new ≡ origin }
    {
        self.x = 0;
        self.y = 0;
    }

    fn act<R: Recorder>(
        &mut self,
        _wheel: &Wheel,
        spoke: Spoke,
        _recorder: &mut R,
    ) -> Result<(), AllocError>
        requires belongs { IsFlatWheel _wheel.now }
        requires spoke { spoke.0 < length _wheel.now }
        requires room { size_of self.old < 2 ^ 62 }
        ensures sure { IsOk result }
        ensures state { self.new ≡ flat_next _wheel.now self.old spoke.0 }
        ensures silent { _recorder.new ≡ _recorder.old }
    {
        let (right, up) = step_of(spoke);
        if self.is_at_vertex() {
            self.x += right;
            self.y += up;
        } else {
            self.x -= right;
            self.y -= up;
        }
        Ok(())
    }

    fn same(&self, other: &Self) -> bool {
        self.x == other.x && self.y == other.y
    }
}

/// The unit step of a spoke, to the right and up.
fn step_of(spoke: Spoke) -> (i64, i64)
    requires { spoke.0 < 4 }
    ensures right { result.0 ≡ (unit_step spoke.0).x }
    ensures up { result.1 ≡ (unit_step spoke.0).y }
{
    match spoke.0 {
        0 => (1, 0),
        1 => (0, 1),
        2 => (-1, 0),
        _ => (0, -1),
    }
}
