//! From walks to words: which walks of a surface are homotopic.
//!
//! A caller who has a surface and two walks calls `decide`, and one who has many pairs of walks keeps a `Decider`, which labels
//! the surface once; one who wants the words of single walks keeps a `Labelled`. `label_surface` gives the labelling under which words are
//! taken; what is said of words and denials under any labelling stands in `labellings`, and its calls are found here too.
//! Proved: the decision is exact for every genus.
//!
//!     let answer = decide(alloc, &surface, &first, &second)?;
#![tactic(auto)]

mod dart_spokes;
mod decider;
mod deciding;
mod labelled;
mod labels;
mod spoked;
mod walks;

pub use decider::Decider;
pub use deciding::decide;
pub use labelled::Labelled;
pub use labellings::{DenialVerdict, check_denial, fold, word_of};
pub use labels::{label_by_cut, label_surface};
pub use surf_model::Answer;
pub use walks::{are_pair, have_common_ends, is_walk};
