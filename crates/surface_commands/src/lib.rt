//! What commands on orientable closed surfaces share: a surface is read; and the command `surface`, which tells its numbers.
//!
//! `read_surface` reads a mesh and refuses it by the first condition of a closed surface that fails, or by an odd chain. Proved:
//! `surface` is answered exactly for the orientable closed surfaces of few components, with the genus of each. Lemmas (`SurfaceRows`,
//! `RunsOnWalks`) say for each command on a surface and walks how its check goes on behind them.
//!
//!     let surface = read_surface(alloc, &mut shelf, mesh)?;
#![tactic(auto)]

mod refusal;
pub mod surface;
mod surface_input;

pub use refusal::stop_for;
pub use surface_input::{few_components, read_surface, surface_of};
