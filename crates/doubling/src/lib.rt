//! The double of a mesh, which carries questions on a surface with boundary over to a closed one.
//!
//! The double has the faces of the mesh, with their numbers; of each face a mirror copy, read backwards, with the mirror `v + N` of each
//! vertex `v`, where `N` is the vertex count; and for each side on the boundary a quad between it and its mirror. Walks of the mesh are
//! walks of the double as they stand. Proved: `double` makes it, where it is no larger than a mesh may be; two walks of the mesh are
//! homotopic, or homologous, in the double exactly where they are in the mesh; and so are closed walks freely homotopic.
//!
//!     let sides = Sides::build(alloc, &faces)?;
//!     let closed = double(alloc, &faces, &sides)?;
#![tactic(auto)]

mod building;
mod fault;
pub mod laws;

pub use building::{close_face, double};
pub use fault::DoubleFault;
