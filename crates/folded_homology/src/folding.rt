//! Chains and cocycles of the double, folded.
ghost use Rattle.std.specs.Prelude.{◌≡◌, ◌+◌, ◌<◌, ◌≤◌, ◌+ℤ◌, neg_ℤ, ℕ, List, length, take};
ghost use Rattle.surf_model.specs.Walks.{IsWalk};
ghost use Rattle.homology.specs.ArrayCertificates.{AreSmall, DoShow};
ghost use Rattle.folded_homology.specs.FoldedNumbers.{AreFolded};
ghost use Rattle.homology.specs.Tallies.{AreNumbersWithin, number_at};
ghost use Rattle.homology.specs.declared.certificate.TheConstants.{MOST_NUMBER};
ghost use Rattle.doubling.specs.Doubles.{double_of};

use homology::HomologyNumbers;
use surf_model::Faces;

/// Numbers of the double of a mesh that show whether two walks of the mesh are homologous, folded to numbers of the mesh that show it.
pub fn fold(numbers: HomologyNumbers, faces: &Faces) -> HomologyNumbers
    requires small { AreSmall numbers }
    requires show { (first second : List ℕ) × DoShow (double_of faces.now) first second numbers }
    ensures show { (first second : List ℕ) → IsWalk faces.now first → IsWalk faces.now second
        → DoShow (double_of faces.now) first second numbers → DoShow faces.now first second result }
    ensures size { AreFolded result }
{
    // The proof reads what holds of every face list.
    let count = faces.len();
    match numbers {
        HomologyNumbers::Chain(of_face) => {
            HomologyNumbers::Chain(fold_chain(of_face, count as usize))
        }
        HomologyNumbers::Cocycle(of_side) => {
            HomologyNumbers::Cocycle(first_ones(of_side, faces.total() as usize))
        }
    }
}

/// For each of the first so many faces its number less that of its mirror, which stands so many places behind it.
fn fold_chain(mut of_face: Vec<i64>, faces: usize) -> Vec<i64>
    requires mirrors { faces + faces ≤ length of_face.items }
    requires small { AreNumbersWithin MOST_NUMBER of_face.items }
    ensures count { length result.items ≡ faces }
    ensures size { AreNumbersWithin (MOST_NUMBER + MOST_NUMBER) result.items }
    ensures numbers { (f : ℕ) → f < faces → number_at result.items f
        ≡ number_at of_face.items f +ℤ neg_ℤ (number_at of_face.items (faces + f)) }
{
    for face in 0..faces {
        let mirrored = of_face[faces + face];
        of_face[face] -= mirrored;
    }
    of_face.truncate(faces);
    of_face
}

/// The first so many numbers.
fn first_ones(mut numbers: Vec<i64>, count: usize) -> Vec<i64>
    ensures { result.items ≡ take count numbers.items }
{
    numbers.truncate(count);
    numbers
}
