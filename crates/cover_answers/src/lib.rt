//! A command that is asked of an orientation cover in place of a surface that is not orientable answers for the surface.
//!
//! What `mesh_cover` writes is the cover of a closed manifold, and the lifts of two walks of it. So `decide` and `certify` are asked of the
//! cover and the lifts, and `verify` of these and what `certify` printed, and each answer is what holds of the walks.
//!
//!     mesh_cover plane6.off >cover.off
//!     mesh_cover plane6.off plane6.walks | homotopy_cli decide cover.off /dev/stdin
#![tactic(auto)]

pub mod laws;
