//! Lines of numbers.
ghost use Rattle.std.specs.Prelude.{◌≡◌, ◌+◌, ◌<◌, nat_lt, if◌then◌else◌, [], length, drop, IsTrue, ◌↔◌};
ghost use Rattle.walk_files.specs.declared.fault.WalkFault.TheVariants.{BadNumber, TooLong};

use crate::fault::WalkFault;
use text_scan::Cursor;

/// The fault of a line that holds a word that is no number: it is too long where more than `room`
/// words are left in it.
pub(crate) fn fault_of_line(cursor: &mut Cursor<'_>, room: u64) -> WalkFault
    ensures { result ≡ (if nat_lt room (length cursor.old.words) then TooLong cursor.old.line else BadNumber cursor.old.line) }
{
    let line = cursor.line();
    let mut left = room;
    while cursor.word().is_some() {
        if left == 0 {
            return WalkFault::TooLong { line };
        }
        left -= 1;
    }
    WalkFault::BadNumber { line }
}
