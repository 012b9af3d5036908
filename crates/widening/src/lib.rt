//! A good labelling of one component of a closed mesh, widened to the whole mesh.
//!
//! A caller has cut a mesh into its components, and has a good labelling of one of them, as one works with a connected surface.
//! `widen` makes of it a labelling of the whole mesh. Proved, for every good labelling of the component, whatever it was made
//! from: the widened one is good for the whole mesh, and the walks of the component have the same words under it. So what it
//! shows of them on the component it shows on the mesh.
//!
//!     let wide = widen(alloc, &faces, &signs, &parts, part, &good)?;
#![tactic(auto)]

mod filling;
pub mod laws;

pub use filling::widen;
