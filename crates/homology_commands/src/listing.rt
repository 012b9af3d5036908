//! The certificate that a proof of homology on a component is for the whole mesh.
ghost use Rattle.std.specs.Prelude.{◌≡◌, ◌≢◌, ◌+◌, ◌<◌, ◌≤◌, ◌^◌, [], ◌∷◌, ◌++◌, ℕ, List, All, length, slice_index, IfOk, OnOk, pos, unsigned_abs};
ghost use Rattle.surf_model.specs.Edges.{IsPairBefore};
ghost use Rattle.surf_model.specs.FaceLists.{FaceList};
ghost use Rattle.surf_model.specs.Walks.{IsWalk, darts};
ghost use Rattle.homology.specs.Certificates.{AreEdgeNumbers, AreFaceNumbers};
ghost use Rattle.homology.specs.Tallies.{AreNumbersWithin, number_at};
ghost use Rattle.homology.specs.declared.certificate.EdgeNumber.{EdgeNumber};
ghost use Rattle.homology.specs.declared.certificate.FaceNumber.{FaceNumber};
ghost use Rattle.homology.specs.declared.certificate.TheConstants.{MOST_NUMBER};
ghost use Rattle.homology_deciding.specs.Proofs.{IsProofFor};
ghost use Rattle.homology_files.specs.WrittenTexts.{EdgeFits, FaceFits};
ghost use Rattle.closed_surfaces.specs.SignedSurfaces.{IsComponentOf, surface_of};
ghost use Rattle.commands.specs.HomologyCertificates.{ShowsHomology};
ghost use Rattle.homology_commands.specs.Listings.{ListsEdges, ListsFaces, name_in};

use closed_surfaces::Component;
use halfedge_map::Surface;
use homology::{ChainNumbers, CocycleNumbers, EdgeNumber, FaceNumber, HomologyCert};
use homology_deciding::{HomologyProof, Numbers};
use std::alloc::{AllocError, Global};
use surf_model::{EdgeName, FaceName};

/// The certificate for the whole mesh, by what was found of two walks on the component in which they lie.
pub(crate) fn certificate_of(
    alloc: Global,
    component: &Component,
    proof: &HomologyProof,
) -> Result<HomologyCert, AllocError>
    requires component { (mesh : FaceList) × (v : ℕ) × IsComponentOf mesh v component.now }
    requires proof { (first second : List ℕ) × IsProofFor (surface_of component.now) first second proof.now
        × (darts first + darts second ≤ MOST_NUMBER) }
    ensures { (mesh : FaceList) (v : ℕ) (first second : List ℕ) → IsComponentOf mesh v component.now → IsWalk mesh first
        → IsWalk mesh second → slice_index first 0 ≡ v → slice_index second 0 ≡ v
        → IsProofFor (surface_of component.now) first second proof.now → IfOk result (ShowsHomology mesh first second) }
{
    match proof {
        HomologyProof::Chain(numbers) => {
            let faces = list_faces(alloc, component, numbers)?;
            Ok(HomologyCert::Chain(faces))
        }
        HomologyProof::Cocycle(numbers) => {
            let surface = component.surface();
            // The proof reads what holds of every surface.
            let _ = surface.faces();
            let edges = list_edges(alloc, surface, numbers)?;
            Ok(HomologyCert::Cocycle(edges))
        }
    }
}

/// The numbers of the faces of a component that are not 0, with the names that the faces have in the whole mesh.
fn list_faces(
    alloc: Global,
    component: &Component,
    numbers: &Numbers,
) -> Result<ChainNumbers, AllocError>
    requires component { (mesh : FaceList) × (v : ℕ) × IsComponentOf mesh v component.now }
    requires each_face { length numbers.now ≡ length (surface_of component.now).mesh.faces }
    requires small { AreNumbersWithin MOST_NUMBER numbers.now }
    ensures lists { IfOk result (ListsFaces (name_in component.now) (number_at numbers.now) (length numbers.now)) }
    ensures valid { IfOk result AreFaceNumbers }
{
    let mut lines = ChainNumbers::new(alloc);
    for face in 0..numbers.len() {
        let number = numbers.at(face);
        let name = name_of(component, FaceName(face));
        list_face(&mut lines, FaceNumber { face: name, number })?;
    }
    // The proof reads what holds of all numbers of a chain.
    let _ = lines.len();
    Ok(lines)
}

/// The name that a face of a component has in the whole mesh.
fn name_of(component: &Component, face: FaceName) -> FaceName
    requires component { (mesh : FaceList) × (v : ℕ) × IsComponentOf mesh v component.now }
    requires face { face.0 < length (surface_of component.now).mesh.faces }
    ensures { result.0 ≡ name_in component.now face.0 }
{
    match component {
        Component::Whole(_) => face,
        Component::Alone(part) => part.parts.name(part.place, face),
    }
}

/// Lists the number of a face above those that are listed, where it is not 0.
fn list_face(lines: &mut ChainNumbers, line: FaceNumber) -> Result<(), AllocError>
    requires above { All (λ (other : FaceNumber). other.face.0 < line.face.0) lines.old }
    requires small { unsigned_abs line.number ≤ MOST_NUMBER }
    requires few { length lines.old + 1 < 2 ^ 32 }
    ensures zero { line.number ≡ pos 0 → OnOk result (lines.new ≡ lines.old) }
    ensures listed { line.number ≢ pos 0 → OnOk result (lines.new ≡ lines.old ++ line ∷ []) }
    // What holds of every name of a face.
    ensures fits { FaceFits line }
{
    if line.number != 0 {
        lines.push(line)?;
    }
    Ok(())
}

/// The numbers of the edges of a surface that are not 0.
fn list_edges(
    alloc: Global,
    surface: &Surface,
    numbers: &Numbers,
) -> Result<CocycleNumbers, AllocError>
    requires each_edge { length numbers.now ≡ length surface.now.table }
    requires small { AreNumbersWithin MOST_NUMBER numbers.now }
    ensures lists { IfOk result (ListsEdges surface.now.table (number_at numbers.now) (length numbers.now)) }
    ensures valid { IfOk result AreEdgeNumbers }
{
    let mut lines = CocycleNumbers::new(alloc);
    for edge in 0..numbers.len() {
        let number = numbers.at(edge);
        let (low, high) = surface.sides().ends(EdgeName(edge));
        list_edge(&mut lines, EdgeNumber { low, high, number })?;
    }
    // The proof reads what holds of all numbers of a cocycle.
    let _ = lines.len();
    Ok(lines)
}

/// Lists the number of an edge above those that are listed, where it is not 0.
fn list_edge(lines: &mut CocycleNumbers, line: EdgeNumber) -> Result<(), AllocError>
    requires ordered { line.low.0 < line.high.0 }
    requires above { All (λ (other : EdgeNumber). IsPairBefore other.low.0 other.high.0 line.low.0 line.high.0) lines.old }
    requires small { unsigned_abs line.number ≤ MOST_NUMBER }
    requires few { length lines.old + 1 < 2 ^ 32 }
    ensures zero { line.number ≡ pos 0 → OnOk result (lines.new ≡ lines.old) }
    ensures listed { line.number ≢ pos 0 → OnOk result (lines.new ≡ lines.old ++ line ∷ []) }
    // What holds of every name of a vertex.
    ensures fits { EdgeFits line }
{
    if line.number != 0 {
        lines.push(line)?;
    }
    Ok(())
}
