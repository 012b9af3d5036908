//! A connected surface with its labels, and the words of its walks.
ghost use Rattle.std.specs.Prelude.{◌≡◌, ◌↔◌, IfOk, IfSome, IsTrue, MatchOption, Some};
ghost use Rattle.halfedge_map.specs.OrientedMeshes.{IsOrientedSurface};
ghost use Rattle.surf_model.specs.Edges.{IsTableOf};
ghost use Rattle.surf_model.specs.Moves.{Homotopic};
ghost use Rattle.surf_model.specs.Walks.{IsWalk, HaveCommonEnds, AreWalkPair};
ghost use Rattle.walk_translate.specs.DartSpokes.{AreSpokesOf};
ghost use Rattle.walk_translate.specs.Found.{DoDecide, IsWordFound};
ghost use Rattle.walk_translate.specs.LabelledSurfaces.{IsLabelledSurface, IsWordUnder};
ghost use Rattle.walk_translate.specs.Spoked.{IsSpoked};
ghost use Rattle.walk_translate.specs.SurfaceLabels.{HasSphereSplit, IsLabelledByCut};

use crate::dart_spokes::DartSpokes;
use crate::deciding::{answer_by, word_by};
use crate::labels::label_by_cut;
use crate::spoked::Spoked;
use crate::walks::{are_pair, is_walk};
use halfedge_map::Surface;
use quad_system::GoodLabelling;
use std::alloc::{AllocError, Global};
use std::marker::Model;
use surf_model::{Answer, Sides, Walk};
use turn_words::Word;

/// A connected surface with the labels of a cut. Contracts see both.
#[derive(Debug, Drop)]
pub struct Labelled {
    alloc: Global,
    surface: Surface,
    /// The labelling of a polygon into which the surface is cut; a sphere has none.
    labels: Option<GoodLabelling>,
    /// The spokes of all darts under these labels, where many darts are to be asked of.
    kept: Option<DartSpokes>,
}

impl Model for Labelled {
    ghost use Rattle.std.specs.Prelude.{IfSome};
    ghost use Rattle.walk_translate.specs.DartSpokes.{AreSpokesOf};
    ghost use Rattle.walk_translate.specs.LabelledSurfaces.{IsLabelledSurface, LabelledView};

    ghost Value = { LabelledView };

    ghost view = { λ a. record { surface = a.surface; labels = a.labels } };

    ghost invariant = { λ a. IsLabelledSurface (record { surface = a.surface; labels = a.labels })
        × IfSome a.labels (λ good. IfSome a.kept (AreSpokesOf a.surface.mesh good a.surface.table)) };
}

impl Labelled {
    /// Labels a surface, of which walks of so many darts are to be asked. Where these are no fewer than the edges, the spokes of all darts
    /// are kept, in 32 bytes an edge.
    pub fn for_darts(alloc: Global, surface: Surface, darts: u64) -> Result<Labelled, AllocError>
        ensures surface { IfOk result (λ labelled. labelled.surface ≡ surface) }
        ensures labels { IfOk result IsLabelledSurface }
    {
        let keeps_spokes = darts >= u64::from(surface.sides().len());
        Labelled::of(alloc, surface, keeps_spokes)
    }

    /// Labels a surface, and keeps the spokes of all its darts where many are to be asked of.
    pub fn of(alloc: Global, surface: Surface, keeps_spokes: bool) -> Result<Labelled, AllocError>
        ensures surface { IfOk result (λ labelled. labelled.surface ≡ surface) }
        ensures labels { IfOk result IsLabelledSurface }
    {
        let labels = label_by_cut(alloc, &surface)?;
        let kept = spokes_for(alloc, &surface, &labels, keeps_spokes)?;
        Ok(Labelled {
            alloc,
            surface,
            labels,
            kept,
        })
    }

    /// The edge table of the surface.
    pub fn sides(&self) -> &Sides
        ensures table { IsTableOf self.now.surface.mesh result.now }
        // What holds of the words of every surface.
        ensures decide { DoDecide self.now.surface.mesh (IsWordUnder self.now) }
    {
        self.surface.sides()
    }

    /// Where its memory comes from.
    pub fn alloc(&self) -> Global {
        self.alloc
    }

    /// The surface.
    pub fn surface(&self) -> &Surface
        ensures { result.now ≡ self.now.surface }
    {
        &self.surface
    }

    /// The labels of the surface; a sphere has none.
    pub fn labels(&self) -> &Option<GoodLabelling>
        ensures labels { result.now ≡ self.now.labels }
        // What holds of every labelled surface.
        ensures labelled { IsLabelledSurface self.now }
    {
        &self.labels
    }

    /// The surface with its labels and the spokes of its darts, where these are kept.
    pub(crate) fn spoked(&self) -> Option<Spoked<'_>>
        ensures surface { IfSome result (λ spoked. spoked.surface.now ≡ self.now.surface) }
        ensures labels { IfSome result (λ spoked. self.now.labels ≡ Some spoked.good.now) }
        ensures spoked { IfSome result IsSpoked }
    {
        let (Some(good), Some(kept)) = (&self.labels, &self.kept) else {
            return None;
        };
        Some(Spoked {
            surface: &self.surface,
            good,
            kept,
        })
    }

    /// Whether two lists of vertices are walks of the surface with common ends.
    pub(crate) fn are_pair(&self, first: &Walk, second: &Walk) -> bool
        ensures { IsTrue result ↔ AreWalkPair self.now.surface.mesh first.now second.now }
    {
        are_pair(self.surface.faces(), self.surface.sides(), first, second)
    }

    /// Decides whether two walks of the surface with common ends are homotopic.
    pub(crate) fn answer(&self, first: &Walk, second: &Walk) -> Result<Answer, AllocError>
        requires first { IsWalk self.now.surface.mesh first.now }
        requires second { IsWalk self.now.surface.mesh second.now }
        requires ends { HaveCommonEnds first.now second.now }
        ensures { IfOk result (λ answer. (answer ≡ Answer.Homotopic) ↔ Homotopic self.now.surface.mesh first.now second.now) }
    {
        answer_by(self.alloc, &self.surface, &self.labels, first, second)
    }

    /// The word of a walk, or none where this is no walk of the surface.
    pub fn word_if_walk(&self, walk: &Walk) -> Result<Option<Word>, AllocError>
        ensures { IfOk result (IsWordFound self.now.surface.mesh (IsWordUnder self.now) walk.now) }
    {
        if let Some(spoked) = self.spoked() {
            return spoked.word(self.alloc, walk);
        }
        if !is_walk(self.surface.faces(), self.surface.sides(), walk) {
            return Ok(None);
        }
        Ok(Some(word_by(self.alloc, &self.surface, &self.labels, walk)?))
    }
}

/// The spokes of all darts, where many are to be asked of.
fn spokes_for(
    alloc: Global,
    surface: &Surface,
    labels: &Option<GoodLabelling>,
    keeps_spokes: bool,
) -> Result<Option<DartSpokes>, AllocError>
    requires { MatchOption labels.now (HasSphereSplit surface.now) (IsLabelledByCut surface.now) }
    ensures kept { IfOk result (λ kept. IfSome labels.now (λ good. IfSome kept (AreSpokesOf surface.now.mesh good surface.now.table))) }
    // What holds of every surface.
    ensures oriented { IsOrientedSurface surface.now }
{
    let faces = surface.faces();
    let sides = surface.sides();
    let Some(good) = labels else {
        return Ok(None);
    };
    if !keeps_spokes {
        return Ok(None);
    }
    Ok(Some(DartSpokes::build(alloc, faces, sides, good)?))
}
