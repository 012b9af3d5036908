//! Reading walks.
ghost use Rattle.std.specs.Prelude.{◌≡◌, ◌⊎◌, ◌+◌, ◌<◌, [], length, IsTrue, OnOk, Ok, Err, nat_lt, if◌then◌else◌};
ghost use Rattle.text_scan.specs.Lines.{is_filled, full_lines};
ghost use Rattle.text_scan.specs.Unread.{Unread, lines_left};
ghost use Rattle.walk_files.specs.NumberTexts.{plain_walks_of, walk_of, numbers_on};
ghost use Rattle.walk_files.specs.WalkTexts.{walk_text_of, in_version, has_header};
ghost use Rattle.walk_files.specs.declared.fault.WalkFault.TheVariants.{OutOfMemory};
ghost use Rattle.walk_files.specs.declared.limits.TheConstants.{MOST_WALK_VERTICES};

use crate::fault::WalkFault;
use crate::groups::read_groups;
use crate::limits::{MOST_LINES, MOST_WALK_VERTICES};
use crate::numbers::fault_of_line;
use crate::walk_list::WalkList;
use std::alloc::Global;
use surf_model::{VertexName, Walk};
use text_scan::{Cursor, Lines};

/// The words of the header of a text of version 2.
const HEADER: &[u8] = b"WALKS 2";

/// The walks of a text, one on each line with words, behind the header where it has version 2.
pub fn read_walks(alloc: Global, bytes: &[u8]) -> Result<WalkList, WalkFault>
    ensures { (result ≡ walk_text_of bytes.now) ⊎ (result ≡ Err OutOfMemory) }
{
    if has_header(bytes) {
        let mut lines = Lines::new(bytes);
        let _ = lines.next();
        return read_groups(alloc, &mut lines);
    }
    read_plain(alloc, &mut Cursor::new(bytes))
}

/// Whether the first line of a text is the header of version 2.
fn has_header(bytes: &[u8]) -> bool
    ensures { result ≡ has_header (full_lines bytes.now) }
{
    let mut cursor = Cursor::new(bytes);
    if !cursor.find_line() {
        return false;
    }
    cursor.pass_words(HEADER)
}

/// The walks of the lines left, each a list of numbers.
fn read_plain(alloc: Global, cursor: &mut Cursor<'_>) -> Result<WalkList, WalkFault>
    ensures { (result ≡ in_version 1 (plain_walks_of (lines_left cursor.old))) ⊎ (result ≡ Err OutOfMemory) }
{
    let mut walks = WalkList::new(alloc, 1);
    while cursor.find_line() {
        if walks.len() == MOST_LINES {
            return Err(WalkFault::TooMany {
                line: cursor.line(),
            });
        }
        let walk = read_walk(alloc, cursor)?;
        walks.push(walk)?;
    }
    Ok(walks)
}

/// The walk of the present line, of which no word was read yet.
fn read_walk(alloc: Global, cursor: &mut Cursor<'_>) -> Result<Walk, WalkFault>
    requires { IsTrue (is_filled cursor.old.words) }
    ensures walk { (result ≡ numbers_on walk_of MOST_WALK_VERTICES cursor.old.line cursor.old.words) ⊎ (result ≡ Err OutOfMemory) }
    ensures place { OnOk result (cursor.new ≡ record cursor.old { words = [] }) }
{
    let Some(first) = cursor.number() else {
        return Err(fault_of_line(cursor, MOST_WALK_VERTICES - 1));
    };
    let mut walk = Walk::new(alloc, VertexName(first))?;
    let mut room = MOST_WALK_VERTICES - 1;
    while cursor.has_word() {
        if room == 0 {
            return Err(WalkFault::TooLong {
                line: cursor.line(),
            });
        }
        room -= 1;
        let Some(next) = cursor.number() else {
            return Err(fault_of_line(cursor, room));
        };
        walk.push(VertexName(next))?;
    }
    Ok(walk)
}
