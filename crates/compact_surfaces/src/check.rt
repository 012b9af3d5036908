//! The conditions of a compact surface, in their order.
ghost use Rattle.std.specs.Prelude.{◌≡◌, ◌⊎◌, ◌↔◌, IfOk, IfErr, OnOk, IsTrue};
ghost use Rattle.surf_model.specs.Edges.{IsTableOf};
ghost use Rattle.free_forms.specs.OpenSurfaces.{HasBoundary};
ghost use Rattle.compact_surfaces.specs.CompactSurfaces.{IsCompactSurface};
ghost use Rattle.compact_surfaces.specs.Faults.{IsConditionFault};

use crate::fault::CompactFault;
use connectivity::pinched_vertex;
use free_forms::{OpenFault, check_open};
use std::alloc::Global;
use surf_model::{Faces, Sides};

/// Whether a compact surface has boundary; or the first condition that fails.
pub(crate) fn has_boundary(
    alloc: Global,
    faces: &Faces,
    sides: &Sides,
) -> Result<bool, CompactFault>
    requires { IsTableOf faces.now sides.now }
    ensures compact { OnOk result (IsCompactSurface faces.now) }
    ensures boundary { IfOk result (λ has. IsTrue has ↔ HasBoundary faces.now) }
    ensures fault { IfErr result (λ fault. (fault ≡ CompactFault.OutOfMemory) ⊎ IsConditionFault faces.now fault) }
{
    match check_open(alloc, faces, sides) {
        // In several pieces it is a surface too.
        Ok(()) | Err(OpenFault::Apart { .. }) => Ok(true),
        Err(OpenFault::NoBoundary) => match pinched_vertex(alloc, faces, sides)? {
            Some(vertex) => Err(CompactFault::Pinched { vertex }),
            None => Ok(false),
        },
        Err(OpenFault::NoFace) => Err(CompactFault::NoFace),
        Err(OpenFault::EdgeSides { low, high, sides }) => {
            Err(CompactFault::EdgeSides { low, high, sides })
        }
        Err(OpenFault::Pinched { vertex }) => Err(CompactFault::Pinched { vertex }),
        Err(OpenFault::OutOfMemory) => Err(CompactFault::OutOfMemory),
    }
}
