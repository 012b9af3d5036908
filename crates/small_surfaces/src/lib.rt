//! Surfaces of small meshes, for the tests of the crates that stand on surfaces.
//!
//! A caller sees two calls, that make the surface of some triangles and a walk on a surface. Proved: the mesh has these
//! triangles in their order, and a list is refused, but for want of memory, only where there is no such surface; the walk
//! has these vertices, and there is none exactly where they are no walk.
//!
//!     let torus = surface_of(alloc, 7, &TORUS)?;
//!     let walk = walk_on(alloc, &torus, &[0, 1, 2, 3])?;
#![tactic(auto)]

mod walk;

ghost use Rattle.std.specs.Prelude.{◌≡◌, ◌⊎◌, ◌*◌, ◌≤◌, length, IfOk, IfErr};
ghost use Rattle.surf_model.specs.declared.limits.TheConstants.{MOST_SIDES, MOST_VERTICES};
ghost use Rattle.small_surfaces.specs.Triangles.{IsTriangleSurface};

use halfedge_map::Surface;
use manifold_check::{Parts, SurfaceFault, check_closed};
use orientation::{OrientFault, orient};
use small_meshes::{Triangle, TriangleFault, mesh_of};
use std::alloc::{AllocError, Global};
use surf_model::Sides;
pub use walk::walk_on;

/// Why triangles make no surface.
#[derive(Clone, Copy, Debug, PartialEq, Eq)]
pub enum NoSurface {
    /// One of them is no face, or together they are no connected orientable closed surface.
    Faulty,
    /// Memory ran out.
    OutOfMemory,
}

impl From<AllocError> for NoSurface {
    ghost use Rattle.std.specs.Prelude.{◌≡◌};
    ghost use Rattle.small_surfaces.specs.declared.NoSurface.TheVariants.{OutOfMemory};

    ghost from_gives = { λ _ fault. fault ≡ OutOfMemory };

    fn from(_error: AllocError) -> NoSurface {
        NoSurface::OutOfMemory
    }
}

/// The surface of these triangles over `count` vertices.
pub fn surface_of(alloc: Global, count: u32, triangles: &[Triangle]) -> Result<Surface, NoSurface>
    requires few_vertices { count ≤ MOST_VERTICES }
    requires few_sides { 3 * length triangles.now ≤ MOST_SIDES }
    ensures surface { IfOk result (λ surface. surface.mesh ≡ record { count = count; faces = triangles.now }) }
    ensures fault { IfErr result (λ fault. (fault ≡ NoSurface.OutOfMemory) ⊎ (IsTriangleSurface count triangles.now → ⊥)) }
{
    let faces = match mesh_of(alloc, count, triangles) {
        Ok(faces) => faces,
        Err(TriangleFault::NoFace) => return Err(NoSurface::Faulty),
        Err(TriangleFault::OutOfMemory) => return Err(NoSurface::OutOfMemory),
    };
    let sides = Sides::build(alloc, &faces)?;
    match check_closed(alloc, &faces, &sides) {
        Ok(()) => {}
        Err(SurfaceFault::OutOfMemory) => return Err(NoSurface::OutOfMemory),
        Err(_) => return Err(NoSurface::Faulty),
    }
    if Parts::build(alloc, &faces, &sides)?.len() != 1 {
        return Err(NoSurface::Faulty);
    }
    let signs = match orient(alloc, &faces, &sides) {
        Ok(signs) => signs,
        Err(OrientFault::NotOrientable { .. }) => return Err(NoSurface::Faulty),
        Err(OrientFault::OutOfMemory) => return Err(NoSurface::OutOfMemory),
    };
    Ok(Surface::build(alloc, faces, sides, signs)?)
}
