//! The files of the system as a shelf.
ghost use Rattle.std.specs.Prelude.{◌≡◌, ◌≢◌, ◌≤◌, ◌↔◌, length, None, IfOk, IfErr, IsTrue, IsErrAnd};
ghost use Rattle.std.specs.IoError.{error_kind};

use crate::faults::Failed;
use crate::shelf::Shelf;
use std::alloc::Global;
use std::io::{ErrorKind, Read};
use std::rt::Files;
use std::{fs, io};

/// How many bytes are passed over at once.
const SCRATCH: usize = 8_192;

// A file that was read up to `place`.
#[derive(Drop)]
struct OpenedFile<F> {
    name: String,
    file: F,
    place: u64,
}

/// The files of the system. A file is opened at the first read of its name, and stays open at the
/// place that was read up to. A read at another place opens it anew and passes over what is before.
/// A read that a signal interrupts is tried again.
#[derive(Drop)]
pub struct FileShelf<'a, R: Files> {
    rt: &'a R,
    alloc: Global,
    opened: Vec<OpenedFile<R::File>>,
    faults: u64,
}

impl<'a, R: Files> FileShelf<'a, R> {
    /// A shelf that has opened no file and counted no fault.
    pub fn new(rt: &'a R, alloc: Global) -> Self
        ensures { ⟦<FileShelf<'a, R> as Shelf>⟧.faults result ≡ 0 }
    {
        Self {
            rt,
            alloc,
            opened: Vec::new(alloc),
            faults: 0,
        }
    }

    // A file that failed is closed.
    fn read_file(&mut self, name: &str, at: u64, into: &mut [u8]) -> io::Result<usize>
        ensures bound { IfOk result (λ n. n ≤ length into.new) }
        ensures same_faults { self.new.faults ≡ self.old.faults }
    {
        let mut opened = match self.take_opened(name, at) {
            Some(opened) => opened,
            None => self.open_at(name, at)?,
        };
        let count = read_again(&mut opened.file, into)?;
        opened.place = opened.place.saturating_add(count as u64);
        self.opened.push(opened)?;
        Ok(count)
    }

    // The open file, unless it is at another place; then it is closed.
    fn take_opened(&mut self, name: &str, at: u64) -> Option<OpenedFile<R::File>>
        ensures { self.new.faults ≡ self.old.faults }
    {
        let index = self
            .opened
            .iter()
            .position(|opened| opened.name.as_str() == name)?;
        let opened = self.opened.swap_remove(index);
        if opened.place == at {
            Some(opened)
        } else {
            None
        }
    }

    fn open_at(&self, name: &str, at: u64) -> io::Result<OpenedFile<R::File>> {
        let mut file = fs::open(self.rt, name)?;
        pass_over(&mut file, at)?;
        let name = String::from_str(self.alloc, name)?;
        Ok(OpenedFile {
            name,
            file,
            place: at,
        })
    }
}

impl<R: Files> Shelf for FileShelf<'_, R> {
    ghost held = { λ _. None };

    ghost faults = { λ s. s.faults };

    fn read(&mut self, name: &str, at: u64, into: &mut [u8]) -> Result<usize, Failed> {
        match self.read_file(name, at, into) {
            Ok(count) => Ok(count),
            Err(_) => {
                self.faults = self.faults.saturating_add(1);
                Err(Failed)
            }
        }
    }
}

// Reads and drops the next `count` bytes, or those that there are.
fn pass_over<F: Read>(file: &mut F, count: u64) -> io::Result<()> {
    let mut scratch = [0; SCRATCH];
    let mut left = count;
    while left > 0 {
        let room = left.min(SCRATCH as u64) as usize;
        let passed = read_again(file, &mut scratch[..room])?;
        if passed == 0 {
            break;
        }
        left -= passed as u64;
    }
    Ok(())
}

// Reads as often as a signal interrupts the read.
fn read_again<F: Read>(file: &mut F, into: &mut [u8]) -> io::Result<usize>
    ensures bound { IfOk result (λ n. n ≤ length into.new) }
    ensures retried { IfErr result (λ e. error_kind e ≢ ErrorKind.Interrupted) }
{
    for _ in 0..u64::MAX {
        let read = file.read(into);
        if !is_interrupted(&read) {
            return read;
        }
    }
    Err(io::Error::from(ErrorKind::Other))
}

fn is_interrupted(read: &io::Result<usize>) -> bool
    ensures { IsTrue result ↔ IsErrAnd read.now (λ e. error_kind e ≡ ErrorKind.Interrupted) }
{
    match read {
        Ok(_) => false,
        Err(error) => error.kind() == ErrorKind::Interrupted,
    }
}
