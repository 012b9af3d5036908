//! Whether pairs of walks of a surface are homotopic, of one component or of several.
//!
//! A `PairDecider` is made of a surface once, and asked of any number of pairs. A connected surface is labelled as it is, with no face
//! copied. Of several components each that is no sphere is labelled where a pair lies in it, as a mesh over its own vertices alone,
//! numbered anew: so what it costs hangs on its own size, and not on that of the whole mesh. Who asks in the `order` that a decider tells
//! has none labelled twice. Each answer is proved to be that of the whole mesh, in any order; that no component is labelled twice is
//! meant, and no clause says so. A `WordFinder` keeps the labels of all that it was asked about, and gives the word of one walk, by which
//! walks are told apart without comparing them pair by pair; it gives the free word of a closed walk too, and decides on pairs.
//!
//!     let mut decider = PairDecider::of(alloc, mesh, darts)?;
//!     let answer = decider.answer_if_pair(&first, &second)?;
#![tactic(auto)]

mod apart;
mod free;
mod order;
mod own_mesh;
mod own_numbers;
mod pair_decider;
mod several;
mod several_words;
mod word_finder;

pub use free::PlacedWord;
pub use order::Placed;
pub use pair_decider::PairDecider;
pub use several::Several;
pub use several_words::SeveralWords;
pub use word_finder::WordFinder;
