//! A command that is asked of a double in place of a surface with boundary answers for the surface.
//!
//! What `mesh_double` writes is the double of a surface with boundary, and walks of the surface are walks of the double as they stand. So
//! `decide`, `certify`, `loops` and `homology` are asked of the double, with a file of walks of the surface, and each answer is what holds
//! there. `verify` is asked of the double, the walks and what `certify` printed, and what it accepts holds there.
//!
//!     mesh_double annulus.off | homotopy_cli loops /dev/stdin annulus-round.walks
#![tactic(auto)]

pub mod laws;
