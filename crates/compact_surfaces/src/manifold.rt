//! Closed manifolds, orientable or not.
ghost use Rattle.std.specs.Prelude.{◌≡◌, ◌↔◌, IfOk, IfErr, true};
ghost use Rattle.surf_model.specs.Edges.{IsTableOf};
ghost use Rattle.surf_model.specs.Surfaces.{IsOrientable};
ghost use Rattle.closed_walks.specs.FreeHomotopy.{FreelyHomotopic, IsClosedWalk};
ghost use Rattle.walk_classes.specs.Faults.{IsClassFault};
ghost use Rattle.walk_classes.specs.WalkClasses.{AreClasses};
ghost use Rattle.walk_translate.specs.Found.{IsFoundOn};
ghost use Rattle.compact_surfaces.specs.Answered.{IsAnsweredManifold, mesh_of_answered};
ghost use Rattle.compact_surfaces.specs.Manifolds.{has_signs, mesh_of_manifold};

use crate::answered::AnsweredManifold;
use crate::covered::Covered;
use component_deciding::WordFinder;
use free_loops::FreeAnswer;
use std::alloc::{AllocError, Global};
use surf_model::{Answer, Sides, Walk};
use walk_classes::{ClassFault, classes_by};

/// A closed manifold of which pairs of walks may be asked. Contracts see its mesh.
#[derive(Drop)]
pub enum ClosedManifold {
    /// One with coherent signs.
    Orientable(WordFinder),
    /// One without, by way of its cover.
    Covered(Covered),
}

impl ClosedManifold {
    /// One of which questions may be asked, made of what answers for it.
    pub(crate) fn of(
        alloc: Global,
        answered: AnsweredManifold,
    ) -> Result<ClosedManifold, AllocError>
        requires { IsAnsweredManifold answered }
        ensures mesh { IfOk result (λ manifold. mesh_of_manifold manifold ≡ mesh_of_answered answered) }
        ensures signs { IfOk result (λ manifold. (has_signs manifold ≡ true) ↔ IsOrientable (mesh_of_manifold manifold)) }
    {
        match answered {
            AnsweredManifold::Itself(mesh) => {
                let finder = WordFinder::of(alloc, mesh, u64::MAX)?;
                Ok(ClosedManifold::Orientable(finder))
            }
            AnsweredManifold::Covered(mesh) => {
                let covered = Covered::of(alloc, mesh)?;
                Ok(ClosedManifold::Covered(covered))
            }
        }
    }

    /// Decides whether two walks are homotopic, or tells by `None` that they are no walks of the manifold with common ends.
    pub(crate) fn answer_if_pair(
        &mut self,
        first: &Walk,
        second: &Walk,
    ) -> Result<Option<Answer>, AllocError>
        ensures same { mesh_of_manifold self.new ≡ mesh_of_manifold self.old }
        ensures signs { has_signs self.new ≡ has_signs self.old }
        ensures answer { IfOk result (IsFoundOn (mesh_of_manifold self.old) first.now second.now) }
    {
        match self {
            ClosedManifold::Orientable(finder) => finder.answer_if_pair(first, second),
            ClosedManifold::Covered(covered) => covered.answer_if_pair(first, second),
        }
    }

    /// The numbers of the classes of walks; or the first list that is no walk of the manifold.
    pub(crate) fn classes(
        &mut self,
        alloc: Global,
        walks: &[Walk],
    ) -> Result<Vec<usize>, ClassFault>
        ensures same { mesh_of_manifold self.new ≡ mesh_of_manifold self.old }
        ensures signs { has_signs self.new ≡ has_signs self.old }
        ensures classes { IfOk result (λ numbers. AreClasses (mesh_of_manifold self.old) walks.now numbers.items) }
        ensures fault { IfErr result (IsClassFault (mesh_of_manifold self.old) walks.now) }
    {
        match self {
            ClosedManifold::Orientable(finder) => classes_by(alloc, finder, walks),
            ClosedManifold::Covered(covered) => covered.classes(walks),
        }
    }

    /// Whether two closed walks of a manifold with coherent signs are freely homotopic.
    pub(crate) fn decide_free(
        &mut self,
        first: &Walk,
        second: &Walk,
    ) -> Result<FreeAnswer, AllocError>
        requires signs { has_signs self.old ≡ true }
        requires first { IsClosedWalk (mesh_of_manifold self.old) first.now }
        requires second { IsClosedWalk (mesh_of_manifold self.old) second.now }
        ensures same { mesh_of_manifold self.new ≡ mesh_of_manifold self.old }
        ensures kind { has_signs self.new ≡ has_signs self.old }
        ensures answer { IfOk result (λ answer. (answer ≡ FreeAnswer.Freely)
            ↔ FreelyHomotopic (mesh_of_manifold self.old) first.now second.now) }
    {
        match self {
            ClosedManifold::Orientable(finder) => finder.decide_free(first, second),
            ClosedManifold::Covered(_) => unreachable!(),
        }
    }

    /// Whether it has coherent signs.
    pub(crate) fn has_signs(&self) -> bool
        ensures { result ≡ has_signs self.now }
    {
        match self {
            ClosedManifold::Orientable(_) => true,
            ClosedManifold::Covered(_) => false,
        }
    }

    /// The edge table of the manifold.
    pub(crate) fn sides(&self) -> &Sides
        ensures { IsTableOf (mesh_of_manifold self.now) result.now }
    {
        match self {
            ClosedManifold::Orientable(finder) => finder.sides(),
            ClosedManifold::Covered(covered) => covered.sides(),
        }
    }
}
