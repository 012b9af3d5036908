//! The questions of the program, asked of meshes and walks that lie in arrays.
//!
//! `measure_arrays` has what `surface` prints, `components_of_arrays` the components of a surface, each with its numbers, and which of them
//! each vertex is of; `decide_arrays` what `decide` answers of any number of pairs, and `decide_any_arrays` the
//! same on surfaces that may have boundary and need not be orientable; `KeptMesh` keeps a surface of either kind, and has the same pair
//! after pair, what `loops` answers of pairs of closed walks, and the classes of any number of walks; `certify_arrays` with `text_of` has
//! what `certify` prints, `verify_arrays` what `verify` judges, of a certificate in bytes, `homology_arrays` has what `homology` shows,
//! `homology_any_arrays` also on orientable surfaces that may have boundary, and `verify_homology_arrays` judges that.
//! Proved: the answer is that of the mesh that the arrays are, or what is first wrong with them is named, or memory is wanting; and arrays
//! are read as the mesh whose arrays they are (`laws`).
#![tactic(auto)]

mod answering;
mod certify;
mod classes;
mod components;
mod decide;
mod decide_any;
mod fault;
mod homologies;
mod kept;
pub mod laws;
mod loops;
mod mesh;
mod pair;
mod surface;
mod verify;
mod verify_homology;

pub use answering::WalkAnswer;
pub use certify::{CertifyFault, certify_arrays, text_of};
pub use classes::NoClasses;
pub use components::{ComponentNumbers, SurfaceComponents, components_of_arrays};
pub use decide::{PairAnswer, decide_arrays};
pub use decide_any::decide_any_arrays;
pub use fault::Fault;
pub use homologies::{HomologyFault, homology_any_arrays, homology_arrays};
pub use homology::{ArrayVerdict, HomologyNumbers};
pub use kept::KeptMesh;
pub use loops::LoopAnswer;
pub use mesh::{MeshArrays, mesh_of_arrays};
pub use pair::{MOST_WALK, WalkFault};
pub use surface::{Measured, measure_arrays};
pub use verify::{Judgement, VerifyFault, verify_arrays};
pub use verify_homology::{HomologyClaim, VerifyHomologyFault, verify_homology_arrays};
