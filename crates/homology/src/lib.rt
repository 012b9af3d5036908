//! Homology of walks on polygon meshes, with certificates both ways, on any face list.
//!
//! Two walks with common ends are homologous where a chain tells their counts at every edge apart: a number for each face.
//! That there is none is shown by a cocycle that separates them: a number for each edge. `check_homology` judges either,
//! whoever made it; `check_chain_array` and `check_cocycle_array` judge one that lies in an array, with a number for each face or for
//! each side, as `numbers_of` writes it. Proved: the verdict is the first fault that the certificate has, or that it holds; and, as
//! laws, homotopic walks are homologous, and two walks that a cocycle separates have no chain.
//!
//!     let mut numbers = ChainNumbers::new(alloc);
//!     numbers.push(FaceNumber { face: FaceName(3), number: -1 })?;
//!     let verdict = check_homology(alloc, &faces, &sides, &first, &second, &HomologyCert::Chain(numbers))?;
#![tactic(auto)]

mod array;
mod array_check;
mod certificate;
mod chain_check;
mod cocycle_check;
pub mod laws;
mod numbers;
mod side_numbers;
pub mod tally;
mod verdict;
mod walk_pair;

pub use array::{HomologyNumbers, numbers_of};
pub use array_check::{ArrayVerdict, check_chain_array, check_cocycle_array};
pub use certificate::{
    ChainNumbers, CocycleNumbers, EdgeNumber, FaceNumber, HomologyCert, MOST_NUMBER,
};
pub use verdict::{HomologyVerdict, check_homology};
