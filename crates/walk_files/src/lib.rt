//! The texts beside a mesh: walks, turn words and lists of moves, read and written.
//!
//! A caller sees walks and turn words as lists of lists of numbers, walks with the version of their text, and a reader of a certificate
//! as its text, its head, how many moves it gave and the refusal that it keeps. Proved: a reader gives what the lines of its text mean,
//! or the first fault with its line, or wants memory; a list of moves is written in its one spelling, and reads back; and `check_pair`
//! finds two walks of the mesh with common ends, `check_pairs` one or more such pairs, and `check_loops` two closed walks, or what is
//! first wrong. `CertStream` gives of a certificate on a shelf, read in pieces, what `CertReader` gives on the whole text, and no move
//! takes memory. What is written reads back, also behind the line of its decision (`laws`).
//!
//!     let walks = read_walks(alloc, b"0 1 2\n0 2 # the short way\n")?;
//!     check_pair(&sides, &walks)?;
#![tactic(auto)]

mod certificate;
mod counting;
mod denial;
mod denial_writing;
mod entries;
mod fault;
mod groups;
pub mod laws;
mod limits;
mod loops;
mod moves;
mod number_lines;
mod numbers;
mod pair;
mod pairs;
mod reader;
mod stream;
mod stream_denial;
mod stream_end;
mod stream_lines;
mod tokens;
mod walk_list;
mod walks;
mod whole_lines;
mod words;
mod write;

pub use certificate::CertHead;
pub use denial_writing::{put_turns, write_denial};
pub use fault::{CertFault, WalkFault};
pub use limits::{
    MOST_DARTS, MOST_ENTRIES, MOST_LINES, MOST_PEAK, MOST_POWER, MOST_WALK_DARTS,
    MOST_WALK_VERTICES,
};
pub use loops::{LoopFault, check_loops};
pub use number_lines::NumberLines;
pub use pair::{PairFault, check_pair};
pub use pairs::{PairsFault, check_pairs};
pub use reader::CertReader;
pub use stream::CertStream;
pub use stream_end::StreamEnd;
pub use walk_list::WalkList;
pub use walks::read_walks;
pub use words::{WordReader, read_words};
pub use write::write_moves;
