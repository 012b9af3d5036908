//! Reading texts: lines that end with a line feed, and their words. Nothing here takes memory.
//!
//! A caller sees a `Cursor` as the words left in its line and the lines behind it, `Lines` as the lines left, and `Words` as
//! the words left. Proved: each call gives what the next word or line of the text is, and goes past it; a word is a
//! natural, a signed number or a number text exactly where its bytes say so.
//!
//!     let mut cursor = Cursor::new(b"# title\n4 -1.5 x");
//!     if cursor.find_line() {
//!         let four = cursor.natural();
//!         let is_number = cursor.number_text();
//!         let x = cursor.word();
//!     }
#![tactic(auto)]

mod cursor;
mod line_by_line;
mod naturals;
mod steps;

pub use cursor::Cursor;
pub use line_by_line::{Line, Lines, Words};
pub use naturals::{NumberFault, is_number_text, natural, number, signed};
