//! Labellings of the corners of a mesh by the spokes of a system of quads: when they are good, what word a walk has under
//! one, and what a denial shows. All of it looks at a mesh alone, edge by edge, and asks nothing of where a labelling
//! comes from.
//!
//! A caller sees a labelling as its degree, its flips, its labels and its places, and a good one as the labelling. One who
//! has a denial of another calls `check_denial`; `check_labelling` and `word_of` are its parts. Proved: a labelling is
//! good, or the first rule that fails is named with its least element; each verdict on a denial comes exactly where it is
//! the first; and, as laws, moves keep what a form makes of a walk, on any mesh, so no list of moves leads where a denial
//! holds.
//!
//!     let good = check_labelling(alloc, &faces, &sides, labelling)?;
//!     let word = word_of(alloc, &faces, &sides, &good, &walk)?;
#![tactic(auto)]

mod check;
mod darts;
mod denial;
mod fault;
mod folding;
mod good;
mod labelling;
pub mod laws;
mod rules;
mod shape;
mod verdict;
mod word;

pub use check::check_labelling;
pub use denial::Denial;
pub use fault::LabelFault;
pub use folding::{fold, put_spokes};
pub use good::GoodLabelling;
pub use labelling::Labelling;
pub use verdict::{DenialVerdict, check_denial};
pub use word::{are_same_words, word_of};
