//! The words that a program was started with.
use std::alloc::AllocError;
use std::env::FillError;
use std::rt::Env;
use std::{env, io};

/// The words behind the program's name; none, where one of them is no text. The error is that there is no memory. Nothing is told of them,
/// as of the files of the system.
pub fn read_words<R: Env + AllocGlobal>(rt: &R) -> Result<Vec<String>, AllocError> {
    match words_behind(rt) {
        Ok(words) => Ok(words),
        Err(error) if error.kind() == io::ErrorKind::OutOfMemory => Err(AllocError),
        Err(_) => Ok(Vec::new(rt.alloc())),
    }
}

/// The words behind the program's name, each a text.
fn words_behind<R: Env + AllocGlobal>(rt: &R) -> io::Result<Vec<String>> {
    Ok(env::args(&(BehindName(rt), rt.alloc()))?.collect(rt.alloc())?)
}

/// The arguments behind the program's name, which is never read, since it may be no text.
#[derive(Drop)]
struct BehindName<'a, R>(&'a R);

impl<R: Env> Env for BehindName<'_, R> {
    fn arg(&self, i: usize, buf: &mut [u8]) -> Result<usize, FillError> {
        self.0.arg(i.saturating_add(1), buf)
    }

    fn var(&self, name: &str, buf: &mut [u8]) -> Result<usize, FillError> {
        self.0.var(name, buf)
    }

    fn var_at(&self, i: usize, buf: &mut [u8]) -> Result<usize, FillError> {
        self.0.var_at(i, buf)
    }
}
