//! Compact surfaces, of which pairs of walks may be asked.
ghost use Rattle.std.specs.Prelude.{◌≡◌, ◌⊎◌, ◌↔◌, ◌<◌, ◌≤◌, ℕ, All, IfErr, IfOk, IsTrue, MatchOption, OnOk, length, true};
ghost use Rattle.surf_model.specs.Edges.{IsTableOf};
ghost use Rattle.surf_model.specs.FaceLists.{FaceList};
ghost use Rattle.surf_model.specs.Surfaces.{IsOrientable};
ghost use Rattle.closed_surfaces.specs.SignedSurfaces.{IsSigned};
ghost use Rattle.closed_walks.specs.FreeHomotopy.{FreelyHomotopic, IsClosedWalk};
ghost use Rattle.walk_classes.specs.Faults.{IsClassFault};
ghost use Rattle.walk_classes.specs.WalkClasses.{AreClasses};
ghost use Rattle.surf_model.specs.Walks.{walk_at};
ghost use Rattle.walk_translate.specs.Found.{IsFoundOn};
ghost use Rattle.compact_surfaces.specs.Answered.{IsOwnFor};
ghost use Rattle.compact_surfaces.specs.CompactSurfaces.{IsCompactSurface};
ghost use Rattle.compact_surfaces.specs.Faults.{IsFirstCompactFault};
ghost use Rattle.compact_surfaces.specs.Manifolds.{has_signs, mesh_of_manifold};

use crate::answered::AnsweredSurface;
use crate::covered_mesh::TabledMesh;
use crate::fault::CompactFault;
use crate::manifold::ClosedManifold;
use closed_surfaces::SignedMesh;
use component_deciding::WordFinder;
use free_loops::FreeAnswer;
use std::alloc::{AllocError, Global};
use std::marker::Model;
use surf_model::{Answer, Faces, Sides, Walk};
use walk_classes::ClassFault;

/// A compact surface with what questions about its walks need. Contracts see its mesh.
#[derive(Drop)]
pub struct CompactSurface {
    alloc: Global,
    /// How many vertices and faces the mesh has. They are the first ones of the closed manifold.
    vertices: u32,
    faces: u32,
    /// The edge table of the mesh, where the closed manifold is its double.
    own: Option<Sides>,
    /// The mesh, or its double.
    closed: ClosedManifold,
}

impl Model for CompactSurface {
    ghost use Rattle.surf_model.specs.FaceLists.{FaceList};
    ghost use Rattle.compact_surfaces.specs.Kept.{IsKeptClosed, first_faces};
    ghost use Rattle.compact_surfaces.specs.Manifolds.{has_signs, mesh_of_manifold};

    ghost Value = { FaceList };

    ghost view = { λ a. first_faces a.vertices a.faces (mesh_of_manifold a.closed) };

    ghost invariant = { λ a. IsKeptClosed (first_faces a.vertices a.faces (mesh_of_manifold a.closed)) a.own (mesh_of_manifold a.closed)
        (has_signs a.closed) };
}

impl CompactSurface {
    /// The compact surface that a mesh is, or the first condition that fails. It takes time that is linear in the mesh.
    pub fn of(alloc: Global, faces: Faces) -> Result<CompactSurface, CompactFault>
        ensures mesh { IfOk result (λ surface. surface ≡ faces) }
        ensures compact { OnOk result (IsCompactSurface faces) }
        ensures fault { IfErr result (λ fault. (fault ≡ CompactFault.OutOfMemory) ⊎ IsFirstCompactFault faces fault) }
        ensures none { OnOk result ((fault : CompactFault) → IsFirstCompactFault faces fault → ⊥) }
    {
        let (vertices, count) = (faces.count(), faces.len());
        let answered = AnsweredSurface::of(alloc, faces)?;
        let own = table_of(answered.own);
        let closed = ClosedManifold::of(alloc, answered.closed)?;
        Ok(CompactSurface {
            alloc,
            vertices,
            faces: count,
            own,
            closed,
        })
    }

    /// The orientable closed surface that a mesh is, of which walks of so many darts are to be asked.
    pub fn of_signed(
        alloc: Global,
        mesh: SignedMesh,
        darts: u64,
    ) -> Result<CompactSurface, AllocError>
        requires { IsSigned mesh }
        ensures { IfOk result (λ surface. surface ≡ mesh.faces) }
    {
        let (vertices, faces) = (mesh.faces.count(), mesh.faces.len());
        let finder = WordFinder::of(alloc, mesh, darts)?;
        Ok(CompactSurface {
            alloc,
            vertices,
            faces,
            own: None,
            closed: ClosedManifold::Orientable(finder),
        })
    }

    /// The edge table of the mesh.
    pub fn sides(&self) -> &Sides
        ensures table { IsTableOf self.now result.now }
        // What holds of every compact surface.
        ensures compact { IsCompactSurface self.now }
    {
        match &self.own {
            Some(sides) => sides,
            None => self.closed.sides(),
        }
    }

    /// Whether the faces have coherent signs.
    pub fn is_orientable(&self) -> bool
        ensures { IsTrue result ↔ IsOrientable self.now }
    {
        self.closed.has_signs()
    }

    /// Decides whether two walks are homotopic, or tells by `None` that they are no walks of the surface with common ends.
    pub fn answer_if_pair(
        &mut self,
        first: &Walk,
        second: &Walk,
    ) -> Result<Option<Answer>, AllocError>
        ensures same { self.new ≡ self.old }
        ensures answer { IfOk result (IsFoundOn self.old first.now second.now) }
    {
        // What lies in the mirror is no walk of the mesh.
        if !lies_below(first, self.vertices) || !lies_below(second, self.vertices) {
            return Ok(None);
        }
        let found = self.closed.answer_if_pair(first, second)?;
        Ok(found)
    }

    /// For each walk the number of its class: the least place of a walk that has the same ends and is homotopic to it. Where a list is no
    /// walk, the first such place is told.
    pub fn classes(&mut self, walks: &[Walk]) -> Result<Vec<usize>, ClassFault>
        ensures same { self.new ≡ self.old }
        ensures classes { IfOk result (λ numbers. AreClasses self.old walks.now numbers.items) }
        ensures fault { IfErr result (IsClassFault self.old walks.now) }
    {
        let alloc = self.alloc;
        // What lies in the mirror is no walk of the mesh.
        let below = count_below(walks, self.vertices);
        let numbers = self.closed.classes(alloc, &walks[..below])?;
        if below < walks.len() {
            return Err(ClassFault::NoWalk { place: below });
        }
        Ok(numbers)
    }

    /// Whether two closed walks of an orientable surface are freely homotopic.
    pub fn decide_free(&mut self, first: &Walk, second: &Walk) -> Result<FreeAnswer, AllocError>
        requires orientable { IsOrientable self.old }
        requires first { IsClosedWalk self.old first.now }
        requires second { IsClosedWalk self.old second.now }
        ensures same { self.new ≡ self.old }
        ensures answer { IfOk result (λ answer. (answer ≡ FreeAnswer.Freely) ↔ FreelyHomotopic self.old first.now second.now) }
    {
        let answer = self.closed.decide_free(first, second)?;
        Ok(answer)
    }
}

/// The table of a mesh, where it is kept beside its double.
fn table_of(own: Option<TabledMesh>) -> Option<Sides>
    ensures { (mesh closed : FaceList) → IsOwnFor mesh closed own → MatchOption result (closed ≡ mesh) (IsTableOf mesh) }
{
    match own {
        Some(mesh) => Some(mesh.sides),
        None => None,
    }
}

/// Whether all vertices of a walk are below a number.
fn lies_below(walk: &Walk, count: u32) -> bool
    ensures { IsTrue result ↔ All (λ (v : ℕ). v < count) walk.now }
{
    for place in 0..=walk.darts() {
        if walk.at(place).0 >= count {
            return false;
        }
    }
    true
}

/// How many of the first walks there are before one of which some vertex is not below a number.
fn count_below(walks: &[Walk], count: u32) -> usize
    ensures within { result ≤ length walks.now }
    ensures below { (k : ℕ) → k < result → All (λ (v : ℕ). v < count) (walk_at walks.now k) }
    ensures not_next { result < length walks.now → All (λ (v : ℕ). v < count) (walk_at walks.now result) → ⊥ }
{
    for place in 0..walks.len() {
        if !lies_below(&walks[place], count) {
            return place;
        }
    }
    walks.len()
}
