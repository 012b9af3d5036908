//! Whether closed walks on a mesh that is kept are freely homotopic.
ghost use Rattle.std.specs.Prelude.{◌≡◌};
ghost use Rattle.homotopy_c.specs.Kept.{IsMeshLoopsCall};

use crate::handle::MeshHandle;
use crate::mesh::answer_held;
use crate::outcome::Outcome;
use homotopy_arrays::LoopAnswer;
use std::alloc::Global;

/// Whether the two closed walks of each pair are freely homotopic on the mesh that the handle holds: a byte for each pair, which is the
/// code of its answer or of what is wrong with it. Walk after walk `walk_sizes` has the numbers of their vertices, two for each pair, and
/// `walk_vertices` the vertices.
///
/// Where the call ends with another code than `DONE`, `answers` is left as it was.
#[unsafe(no_mangle)]
pub extern "C" fn homotopy_mesh_loops(
    alloc: Global,
    mesh: &mut MeshHandle,
    walk_sizes: &[u32],
    walk_vertices: &[u32],
    answers: &mut [u8],
    outcome: &mut Outcome,
)
    ensures same { mesh.new.kept ≡ mesh.old.kept }
    ensures told { IsMeshLoopsCall mesh.old.kept walk_sizes.now walk_vertices.now answers.old answers.new outcome.new }
{
    *outcome = answer_held::<LoopAnswer>(alloc, mesh, walk_sizes, walk_vertices, answers);
}
