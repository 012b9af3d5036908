//! Whether walks that lie in arrays are homotopic on a compact surface, closed or with boundary, orientable or not, pair by pair.
ghost use Rattle.homotopy_arrays.specs.Compact.{AreDecidedOnAny, IsDecideAnyFault};
ghost use Rattle.homotopy_arrays.specs.MeshArrays.{mesh_in_arrays};
ghost use Rattle.homotopy_arrays.specs.Surfaces.{EndsOn};

use crate::decide::PairAnswer;
use crate::fault::Fault;
use crate::kept::KeptMesh;
use crate::mesh::MeshArrays;
use std::alloc::Global;

/// Whether the walks of each pair are homotopic on the compact surface that the arrays are, in any number of pieces, closed or with
/// boundary, orientable or not. The arrays are those of `decide_arrays`, which answers on orientable closed surfaces alone.
///
/// Nothing is answered where memory is wanting.
pub fn decide_any_arrays(
    alloc: Global,
    mesh: MeshArrays<'_>,
    walk_sizes: &[u32],
    walk_vertices: &[u32],
) -> Result<Vec<PairAnswer>, Fault>
    ensures { EndsOn (mesh_in_arrays mesh.entry) (λ mesh given. AreDecidedOnAny walk_sizes.now walk_vertices.now mesh given.items)
        (IsDecideAnyFault walk_sizes.now walk_vertices.now) result }
{
    let mut kept = KeptMesh::of_any(alloc, mesh)?;
    let given = kept.decide(walk_sizes, walk_vertices);
    // By a call, which is proved once, and not here again.
    drop(kept);
    given
}
