//! Deciding homotopy for many pairs of walks of one surface.
ghost use Rattle.std.specs.Prelude.{◌≡◌, ◌↔◌, IfOk, MatchOption};
ghost use Rattle.surf_model.specs.Edges.{IsTableOf};
ghost use Rattle.surf_model.specs.Walks.{IsWalk, HaveCommonEnds, AreWalkPair};
ghost use Rattle.surf_model.specs.Moves.{Homotopic};

use crate::labelled::Labelled;
use halfedge_map::Surface;
use std::alloc::{AllocError, Global};
use std::marker::Model;
use surf_model::{Answer, Sides, Walk};
use turn_words::Hyper;

/// A surface with its labels, of which many pairs of walks may be asked. Contracts see its mesh.
///
/// The surface is labelled once, and an answer costs no more than its two walks.
#[derive(Debug, Drop)]
pub struct Decider {
    labelled: Labelled,
    /// Forms that are used again for each pair.
    one: Hyper,
    other: Hyper,
}

impl Model for Decider {
    ghost use Rattle.surf_model.specs.FaceLists.{FaceList};

    ghost Value = { FaceList };

    ghost view = { λ a. a.labelled.surface.mesh };
}

impl Decider {
    /// Labels the surface.
    pub fn start(alloc: Global, surface: Surface) -> Result<Decider, AllocError>
        ensures { IfOk result (λ decider. decider ≡ surface.mesh) }
    {
        Decider::for_darts(alloc, surface, 0)
    }

    /// Labels the surface, of which walks of so many darts are to be asked. Where these are no fewer than the edges, the
    /// spokes of all darts are kept, in 32 bytes an edge.
    pub fn for_darts(alloc: Global, surface: Surface, darts: u64) -> Result<Decider, AllocError>
        ensures { IfOk result (λ decider. decider ≡ surface.mesh) }
    {
        let labelled = Labelled::for_darts(alloc, surface, darts)?;
        Ok(Decider::of(alloc, labelled))
    }

    /// Decides by the labels that a surface has.
    pub fn of(alloc: Global, labelled: Labelled) -> Decider
        ensures { result ≡ labelled.surface.mesh }
    {
        Decider {
            labelled,
            one: Hyper::new(alloc),
            other: Hyper::new(alloc),
        }
    }

    /// The edge table of the surface.
    pub fn sides(&self) -> &Sides
        ensures { IsTableOf self.now result.now }
    {
        self.labelled.sides()
    }

    /// Decides whether two walks of the surface with common ends are homotopic. It takes memory for their words alone.
    pub fn answer(&self, first: &Walk, second: &Walk) -> Result<Answer, AllocError>
        requires first { IsWalk self.now first.now }
        requires second { IsWalk self.now second.now }
        requires ends { HaveCommonEnds first.now second.now }
        ensures { IfOk result (λ answer. (answer ≡ Answer.Homotopic) ↔ Homotopic self.now first.now second.now) }
    {
        self.labelled.answer(first, second)
    }

    /// Decides whether two walks are homotopic, or tells by `None` that they are no walks of the surface with common ends. It
    /// looks each dart up once where the spokes of all darts are kept.
    pub fn answer_if_pair(
        &mut self,
        first: &Walk,
        second: &Walk,
    ) -> Result<Option<Answer>, AllocError>
        ensures same { self.new ≡ self.old }
        ensures answer { IfOk result (λ found. MatchOption found (AreWalkPair self.old first.now second.now → ⊥)
            (λ answer. AreWalkPair self.old first.now second.now
            × ((answer ≡ Answer.Homotopic) ↔ Homotopic self.old first.now second.now))) }
    {
        if let Some(spoked) = self.labelled.spoked() {
            return spoked.answer(&mut self.one, &mut self.other, first, second);
        }
        if !self.labelled.are_pair(first, second) {
            return Ok(None);
        }
        Ok(Some(self.labelled.answer(first, second)?))
    }
}
