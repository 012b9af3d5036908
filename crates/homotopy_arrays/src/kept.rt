//! Meshes that are kept, of which questions are asked as they come.
ghost use Rattle.std.specs.Prelude.{◌≡◌, MatchResult, Ok};
ghost use Rattle.compact_surfaces.specs.CompactSurfaces.{IsCompactSurface, IsOrientableCompactSurface};
ghost use Rattle.homotopy_arrays.specs.Classes.{AreClassed, IsNoClassesIn};
ghost use Rattle.homotopy_arrays.specs.Compact.{AreDecidedOnAny, IsCompactFault, IsCompactKept};
ghost use Rattle.homotopy_arrays.specs.Decisions.{AreAnsweredOn, IsAskedFault, IsKept};
ghost use Rattle.homotopy_arrays.specs.Loops.{AreLoopsDecided};
ghost use Rattle.homotopy_arrays.specs.MeshArrays.{mesh_in_arrays};
ghost use Rattle.homotopy_arrays.specs.Surfaces.{EndsOn, IsSurfaceFault};

use crate::answering::{WalkAnswer, answer_all};
use crate::classes::{NoClasses, classes_in};
use crate::decide::PairAnswer;
use crate::fault::Fault;
use crate::loops::LoopAnswer;
use crate::mesh::{MeshArrays, add_up_to, mesh_of_arrays};
use crate::pair::are_pairs;
use crate::surface::surface_of_arrays;
use compact_surfaces::CompactSurface;
use std::alloc::Global;
use std::marker::Model;

/// A compact surface with what questions about its walks need. Contracts see its mesh.
#[derive(Drop)]
pub struct KeptMesh {
    alloc: Global,
    surface: CompactSurface,
}

impl Model for KeptMesh {
    ghost use Rattle.surf_model.specs.FaceLists.{FaceList};

    ghost Value = { FaceList };

    ghost view = { λ a. a.surface };
}

impl KeptMesh {
    /// The orientable closed surface that the arrays are, or what is first wrong. It takes the time and the memory of one question, and 32
    /// bytes an edge beside them where the surface is in one piece. Of several pieces each is labelled where a walk first lies in it, and
    /// its labels are kept.
    pub fn of(alloc: Global, mesh: MeshArrays<'_>) -> Result<KeptMesh, Fault>
        ensures { EndsOn (mesh_in_arrays mesh.entry) IsKept IsSurfaceFault result }
    {
        KeptMesh::for_darts(alloc, mesh, u64::MAX)
    }

    /// The same for one question, about walks of so many darts: no more is kept than it needs.
    pub(crate) fn for_darts(
        alloc: Global,
        mesh: MeshArrays<'_>,
        darts: u64,
    ) -> Result<KeptMesh, Fault>
        ensures { EndsOn (mesh_in_arrays mesh.entry) IsKept IsSurfaceFault result }
    {
        let signed = surface_of_arrays(alloc, mesh)?;
        let surface = CompactSurface::of_signed(alloc, signed, darts)?;
        Ok(KeptMesh { alloc, surface })
    }

    /// The compact surface that the arrays are, in any number of pieces, closed or with boundary, orientable or not; or what is first
    /// wrong.
    ///
    /// A surface with boundary is asked by way of its double, and one that is not orientable by way of its cover: each is made once, and
    /// what is answered is told of the mesh that was given.
    pub fn of_any(alloc: Global, mesh: MeshArrays<'_>) -> Result<KeptMesh, Fault>
        ensures { EndsOn (mesh_in_arrays mesh.entry) IsCompactKept IsCompactFault result }
    {
        let faces = mesh_of_arrays(alloc, mesh)?;
        let surface = CompactSurface::of(alloc, faces)?;
        Ok(KeptMesh { alloc, surface })
    }

    /// The answers on pairs of walks: to the question to which these are answers. Where the surface is none on which they are told, that is
    /// the fault.
    pub fn answers<A: WalkAnswer + Copy>(
        &mut self,
        walk_sizes: &[u32],
        walk_vertices: &[u32],
    ) -> Result<Vec<A>, Fault>
        ensures same { self.new ≡ self.old }
        ensures ends { EndsOn (Ok self.old) (λ mesh given. AreAnsweredOn A.On A.Is walk_sizes.now walk_vertices.now mesh given.items)
            (IsAskedFault A.On walk_sizes.now walk_vertices.now) result }
    {
        let alloc = self.alloc;
        if !A::is_told_on(&self.surface) {
            return Err(Fault::NotOrientable);
        }
        if !are_pairs(walk_sizes, walk_vertices) {
            return Err(Fault::WalkCount);
        }
        Ok(answer_all(alloc, &mut self.surface, walk_sizes, walk_vertices)?)
    }

    /// Whether the walks of each pair are homotopic, as `decide_any_arrays` tells of the arrays of this mesh.
    pub fn decide(
        &mut self,
        walk_sizes: &[u32],
        walk_vertices: &[u32],
    ) -> Result<Vec<PairAnswer>, Fault>
        ensures same { self.new ≡ self.old }
        ensures ends { EndsOn (Ok self.old) (λ mesh given. AreDecidedOnAny walk_sizes.now walk_vertices.now mesh given.items)
            (IsAskedFault IsCompactSurface walk_sizes.now walk_vertices.now) result }
    {
        self.answers(walk_sizes, walk_vertices)
    }

    /// Whether the closed walks of each pair are freely homotopic, where the surface is orientable.
    pub fn loops(
        &mut self,
        walk_sizes: &[u32],
        walk_vertices: &[u32],
    ) -> Result<Vec<LoopAnswer>, Fault>
        ensures same { self.new ≡ self.old }
        ensures ends { EndsOn (Ok self.old) (λ mesh given. AreLoopsDecided walk_sizes.now walk_vertices.now mesh given.items)
            (IsAskedFault IsOrientableCompactSurface walk_sizes.now walk_vertices.now) result }
    {
        self.answers(walk_sizes, walk_vertices)
    }

    /// For each walk the number of its class: the least place of a walk with the same ends that is homotopic to it. Or the first list that
    /// is no walk, and what is first wrong with it.
    pub fn classes(
        &mut self,
        walk_sizes: &[u32],
        walk_vertices: &[u32],
    ) -> Result<Vec<usize>, NoClasses>
        ensures same { self.new ≡ self.old }
        ensures ends { MatchResult result (λ given. AreClassed self.old walk_sizes.now walk_vertices.now given.items)
            (IsNoClassesIn self.old walk_sizes.now walk_vertices.now) }
    {
        let alloc = self.alloc;
        // The proof reads what holds of every compact surface.
        let _ = self.surface.sides();
        if !add_up_to(walk_sizes, walk_vertices.len()) {
            return Err(NoClasses::Count);
        }
        classes_in(alloc, &mut self.surface, walk_sizes, walk_vertices)
    }
}
