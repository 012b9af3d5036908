//! The error of a call of the world outside.
use std::error::Error;
use std::fmt;

/// A call of the world outside failed, and its count of faults rose.
#[derive(Clone, Copy, Debug, PartialEq, Eq)]
pub struct Failed;

impl fmt::Display for Failed {
    fn fmt<W: fmt::Write>(&self, f: &mut fmt::Formatter<W>) -> fmt::Result {
        write!(f, "a file could not be read, or bytes could not be written")
    }
}

impl Error for Failed {}
