//! Turn words: the words that decide whether two walks on a closed surface are homotopic.
//!
//! A caller sees a turn word as the list of its turns, a wheel as the list of its places, and a form as a state that
//! spokes lead on. Proved: `canonise` gives the one canonical word that elementary steps reach; a form meets two laws,
//! that a spoke put twice in a row changes nothing and that the two sides of a quad lead to one state; and the steps
//! that a form notes lead to its word.
//!
//!     let canonical = canonise(alloc, 8, &[1, 0, 3], &mut steps)?;
//!
//! After Erickson and Whittlesey, "Transforming curves on surfaces redux" (2013). docs/TURN-WORDS.md
//! tells what a turn, a step and a canonical word are, and why a canonical word is unique.
#![tactic(auto)]

mod canonising;
mod counter;
mod form;
mod hyper;
pub mod laws;
mod modulo;
mod noting;
mod put;
mod recorder;
mod run_stack;
mod run_word;
mod step;
mod wheel;
mod word;

pub use canonising::{MOST_ENTRIES, WordFault, canonise};
pub use counter::Steps;
pub use form::Form;
pub use hyper::Hyper;
pub use recorder::{Kept, Recorder, Silent};
pub use run_stack::RunStack;
pub use step::Step;
pub use wheel::{Wheel, WheelFault};
pub use word::{TurnWord, Word};
