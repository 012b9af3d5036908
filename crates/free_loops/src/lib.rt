//! Free homotopy: which closed walks of a surface can be moved onto one another with no vertex held fast.
//!
//! A caller who has a surface and two closed walks calls `decide_free`, and one who has the labels of the surface too `decide_labelled`.
//! Both compare the free words of the walks, which `free_word` finds: on a torus a point of the plane, and where there are more handles
//! the least rotation of a cyclically canonical list, to which `cyclic_form_of` brings the spokes of a closed walk.
//!
//!     let answer = decide_free(alloc, &surface, &first, &second)?;
//!
//! What decides stands in `laws`, said of the definitions: on a torus the points of the plane, and where there are more handles the forms.
//! docs/definitions/LOOPS.md tells what free homotopy and a cyclic form are.
#![tactic(auto)]

mod deciding;
mod form;
pub mod laws;
mod spelling;
mod word;

pub use deciding::{FreeAnswer, decide_free, decide_labelled};
pub use form::cyclic_form_of;
pub use word::{FreeRing, FreeWord, are_same_free_words, free_word};
