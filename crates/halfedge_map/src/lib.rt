//! The half-edge map of a connected orientable closed surface: darts under numbers, and the maps on them.
//!
//! A caller sees a surface as its mesh, its table and its signs, and a dart as a number. Proved: each map gives what its
//! definition gives, and together they make a rotation system (laws), so that nothing above looks at the sign of a face.
//!
//!     let surface = Surface::build(alloc, faces, sides, signs)?;
//!     let back = surface.twin(surface.next(DartName(0)));
#![tactic(auto)]

mod darts;
pub mod laws;
pub mod surface;

pub use darts::used_vertices;
pub use surface::Surface;
