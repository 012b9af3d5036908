//! Whether two walks are homologous.
ghost use Rattle.std.specs.Prelude.{◌≡◌, ◌+◌, ◌<◌, ◌≤◌, ◌↔◌, ℕ, true, List, length, IfOk};
ghost use Rattle.surf_model.specs.Walks.{IsWalk, darts};
ghost use Rattle.tree_cotree.specs.Splits.{IsSplit};
ghost use Rattle.homology.specs.Chains.{AreHomologous};
ghost use Rattle.homology.specs.Tallies.{AreNumbersWithin};
ghost use Rattle.homology.specs.declared.certificate.TheConstants.{MOST_NUMBER};
ghost use Rattle.homology_deciding.specs.FaceTrees.{IsTree};
ghost use Rattle.homology_deciding.specs.Heights.{AreForced};
ghost use Rattle.homology_deciding.specs.Proofs.{CountsOf, LeavesOf, IsProofFor, is_chain};

use crate::cutting::cut;
use crate::face_tree::FaceTree;
use crate::heights::{as_listed, heights_of};
use crate::numbers::Numbers;
use halfedge_map::Surface;
use homology::tally::{count_differences, first_nonzero, take_faces};
use std::alloc::{AllocError, Global};
use surf_model::Walk;
use tree_cotree::Split;

/// What shows whether two walks are homologous.
#[derive(Debug, Drop)]
pub enum HomologyProof {
    /// They are: a chain for them, with a number for each face.
    Chain(Numbers),
    /// They are not: a cocycle that separates them, with a number for each edge.
    Cocycle(Numbers),
}

/// Decides whether two walks of a surface are homologous. No number of a chain passes the number of darts that the walks
/// have together, and no number of a cocycle passes 3 in size.
///
/// Each face gets the number that the cotree forces on it; then every edge is tested. Where one fails, the closed way across
/// its two faces and along the cotree gives a cocycle. It looks at each dart of the walks, each edge and each face a few times.
pub fn homologous(
    alloc: Global,
    surface: &Surface,
    split: &Split,
    first: &Walk,
    second: &Walk,
) -> Result<HomologyProof, AllocError>
    requires split { IsSplit surface.now split.now }
    requires first { IsWalk surface.now.mesh first.now }
    requires second { IsWalk surface.now.mesh second.now }
    requires few { darts first.now + darts second.now ≤ MOST_NUMBER }
    ensures proof { IfOk result (IsProofFor surface.now first.now second.now) }
    ensures exact { IfOk result (λ proof. (is_chain proof ≡ true) ↔ AreHomologous surface.now.mesh first.now second.now) }
{
    let mut counts = count_differences(alloc, surface.faces(), surface.sides(), first, second)?;
    let tree = FaceTree { surface, split };
    prove(alloc, &tree, &mut counts)
}

/// What shows whether two walks are homologous that count so much at each edge, the first more than the second.
fn prove(
    alloc: Global,
    tree: &FaceTree<'_>,
    counts: &mut [i64],
) -> Result<HomologyProof, AllocError>
    requires tree { IsTree tree.now }
    requires walks { (first second : List ℕ) × CountsOf tree.now first second counts.old }
    ensures { (first second : List ℕ) → CountsOf tree.now first second counts.old
        → IfOk result (IsProofFor tree.now.surface.now first second) }
{
    let numbers = forced_numbers(alloc, tree, counts)?;
    take_faces(counts, tree.surface.faces(), tree.surface.sides(), &numbers);
    proof_from(alloc, tree, numbers, counts)
}

/// The numbers that the cotree forces on the faces, where so much is counted at each edge.
fn forced_numbers(
    alloc: Global,
    tree: &FaceTree<'_>,
    counts: &[i64],
) -> Result<Vec<i64>, AllocError>
    requires tree { IsTree tree.now }
    requires counts { length counts.now ≡ length tree.now.surface.now.table }
    requires small { AreNumbersWithin MOST_NUMBER counts.now }
    ensures { IfOk result (λ numbers. AreForced tree.now counts.now numbers.items) }
{
    let heights = heights_of(alloc, tree, counts)?;
    as_listed(alloc, tree, &heights)
}

/// What the numbers of the faces prove, with what they leave at each edge: where it is nothing they are a chain, and else the
/// first edge where it is something gives a cocycle.
fn proof_from(
    alloc: Global,
    tree: &FaceTree<'_>,
    numbers: Vec<i64>,
    rest: &[i64],
) -> Result<HomologyProof, AllocError>
    requires tree { IsTree tree.now }
    requires numbers { length numbers.items ≡ length tree.now.surface.now.mesh.faces }
    requires rest { length rest.now ≡ length tree.now.surface.now.table }
    ensures { (first second : List ℕ) → LeavesOf tree.now first second numbers.items rest.now
        → IfOk result (IsProofFor tree.now.surface.now first second) }
{
    match first_nonzero(rest, tree.surface.sides()) {
        None => Ok(HomologyProof::Chain(Numbers::of(numbers))),
        Some(edge) => {
            let dart = tree.surface.dart_of(edge);
            Ok(HomologyProof::Cocycle(Numbers::of(cut(alloc, tree, dart)?)))
        }
    }
}
