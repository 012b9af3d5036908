//! Reading a whole file.
ghost use Rattle.std.specs.Prelude.{◌≡◌, ℕ, ◌+◌, ◌<◌, ◌≤◌, List, length, take, drop, Option, None, IfOk, OnOk, IfSome, vec_len};
ghost use Rattle.surf_io.specs.Calls.{OnlyReads};
ghost use Rattle.surf_io.specs.Faults.{Rose};
ghost use Rattle.surf_io.specs.Files.{file_of, GivesFrom};

use crate::shelf::Shelf;
use std::alloc::{AllocError, Global};
use std::error::Error;
use std::fmt;

/// Why a file was not read whole.
#[derive(Clone, Copy, Debug, PartialEq, Eq)]
pub enum ReadEnd {
    /// A read failed, and the shelf counted a fault.
    Fault,
    /// The file has more bytes than the limit allows.
    TooLarge,
    /// There was no memory for the bytes.
    OutOfMemory,
}

impl fmt::Display for ReadEnd {
    fn fmt<W: fmt::Write>(&self, f: &mut fmt::Formatter<W>) -> fmt::Result {
        match self {
            ReadEnd::Fault => write!(f, "a read failed"),
            ReadEnd::TooLarge => write!(f, "the file is too large"),
            ReadEnd::OutOfMemory => write!(f, "out of memory"),
        }
    }
}

impl Error for ReadEnd {}

/// How many bytes are read at once, unless the limit is near.
const PIECE: usize = 65_536;

/// Reads the file `name` from its first byte to its end. A file of more than `limit` bytes is too
/// large. No more room is taken than for one byte past the limit.
pub fn read_whole<S: Shelf>(
    alloc: Global,
    shelf: &mut S,
    name: &str,
    limit: u64,
) -> Result<Vec<u8>, ReadEnd>
    ensures within_limit { IfOk result (λ bytes. vec_len bytes ≤ limit) }
    ensures whole_file { IfOk result (λ bytes. IfSome (file_of (S.held shelf.old) name.now) (λ file. bytes.items ≡ file)) }
    ensures fault_only_on_fault { result ≡ Err ReadEnd.Fault → Rose (S.faults shelf.old) (S.faults shelf.new) }
    ensures too_large { result ≡ Err ReadEnd.TooLarge → IfSome (file_of (S.held shelf.old) name.now) (λ file. limit < length file) }
    ensures only_reads { OnlyReads S.held S.faults shelf.old shelf.new }
{
    let most = limit.saturating_add(1) as usize;
    let mut bytes = Vec::new(alloc);
    let mut filled = 0;
    loop {
        let Ok(()) = make_room(&mut bytes, filled, most) else {
            return Err(ReadEnd::OutOfMemory);
        };
        let Ok(count) = shelf.read(name, filled as u64, &mut bytes[filled..]) else {
            return Err(ReadEnd::Fault);
        };
        if count == 0 {
            bytes.truncate(filled);
            return Ok(bytes);
        }
        filled += count;
        if filled as u64 > limit {
            return Err(ReadEnd::TooLarge);
        }
    }
}

// Makes room past the first `filled` bytes: for a piece, or up to `most` bytes in all. The room is doubled where it is at
// its end, so that a byte is moved only a few times; what is not filled yet is not touched, and takes no memory.
fn make_room(bytes: &mut Vec<u8>, filled: usize, most: usize) -> Result<(), AllocError>
    requires filled { filled ≤ vec_len bytes.old }
    requires below { filled < most }
    requires within { vec_len bytes.old ≤ most }
    ensures room { OnOk result (filled < vec_len bytes.new) }
    ensures within { OnOk result (vec_len bytes.new ≤ most) }
    ensures kept { OnOk result (take filled bytes.new.items ≡ take filled bytes.old.items) }
{
    let wanted = filled.saturating_add(PIECE).min(most);
    if wanted > bytes.capacity() {
        let room = wanted.saturating_add(filled).min(most);
        bytes.reserve_exact(room - bytes.len())?;
    }
    if wanted > bytes.len() {
        bytes.resize(wanted, 0)?;
    }
    Ok(())
}
