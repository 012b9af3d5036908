//! Writing into the arrays of a caller.
ghost use Rattle.std.specs.Prelude.{◌≡◌, ◌≤◌, ◌<◌, length};
ghost use Rattle.homotopy_c.specs.Outcomes.{short_room};
ghost use Rattle.homotopy_c.specs.Told.{IsPut, in_front};

use crate::codes;
use crate::outcome::{Outcome, coded};

/// Writes the items in front of an array, with this outcome; or tells what length is wanted, where there is too little room.
pub(crate) fn put_items<T: Copy>(items: &[T], room: &mut [T], put: Outcome) -> Outcome
    ensures { IsPut items.now room.old room.new put result }
{
    if items.len() > room.len() {
        return short_room(items.len());
    }
    room[..items.len()].copy_from_slice(items);
    put
}

/// The outcome that this length is wanted.
pub(crate) fn short_room(wanted: usize) -> Outcome
    ensures { result ≡ short_room wanted }
{
    coded(codes::SHORT_ROOM, wanted as u64, 0, 0)
}
