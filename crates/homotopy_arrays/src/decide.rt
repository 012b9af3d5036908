//! Whether walks that lie in arrays are homotopic, pair by pair.
ghost use Rattle.homotopy_arrays.specs.Decisions.{AreDecided, IsDecideFault};
ghost use Rattle.homotopy_arrays.specs.MeshArrays.{mesh_in_arrays};
ghost use Rattle.homotopy_arrays.specs.Surfaces.{EndsOn};

use crate::fault::Fault;
use crate::kept::KeptMesh;
use crate::mesh::MeshArrays;
use crate::pair::WalkFault;
use std::alloc::Global;

/// What is answered of a pair of walks.
#[derive(Clone, Copy, Debug, PartialEq, Eq)]
pub enum PairAnswer {
    /// They are two walks of the surface with common ends, and some list of moves leads from the first to the second.
    Homotopic,
    /// They are two walks of the surface with common ends, and no list of moves does.
    Different,
    /// They are not, for this fault.
    Faulty(WalkFault),
}

/// Whether the walks of each pair are homotopic on the surface that the arrays are. Walk after walk `walk_sizes` has the numbers of their
/// vertices, two for each pair, and `walk_vertices` the vertices.
///
/// The surface is labelled once, or once for each component in which walks lie. Nothing is answered where memory is wanting.
pub fn decide_arrays(
    alloc: Global,
    mesh: MeshArrays<'_>,
    walk_sizes: &[u32],
    walk_vertices: &[u32],
) -> Result<Vec<PairAnswer>, Fault>
    ensures { EndsOn (mesh_in_arrays mesh.entry) (λ mesh given. AreDecided walk_sizes.now walk_vertices.now mesh given.items)
        (IsDecideFault walk_sizes.now walk_vertices.now) result }
{
    let mut kept = KeptMesh::for_darts(alloc, mesh, walk_vertices.len() as u64)?;
    let given = kept.decide(walk_sizes, walk_vertices);
    // By a call, which is proved once, and not here again.
    drop(kept);
    given
}
