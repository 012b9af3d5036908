//! Deciding on walks whose darts are looked up once.
ghost use Rattle.std.specs.Prelude.{◌≡◌, ◌↔◌, ℕ, ◌+◌, ◌-◌, ◌*◌, ◌^◌, ◌<◌, ◌≤◌, List, IsTrue, IfOk};
ghost use Rattle.surf_model.specs.Walks.{IsWalk, AreWalkPair};
ghost use Rattle.surf_model.specs.Moves.{Homotopic};
ghost use Rattle.turn_words.specs.FormLaws.{led};
ghost use Rattle.labellings.specs.QuadPaths.{quad_path};
ghost use Rattle.labellings.specs.WalkWords.{IsWordOf};
ghost use Rattle.walk_translate.specs.Found.{IsFoundOn, IsWordFound};

use crate::dart_spokes::DartSpokes;
use crate::walks::have_common_ends;
use flat_forms::Flat;
use halfedge_map::Surface;
use labellings::{GoodLabelling, put_spokes};
use std::alloc::{AllocError, Global};
use surf_model::{Answer, Walk};
use turn_words::{Form, Hyper, Silent, Word};

/// A surface with its labels, and the spokes of its darts.
#[derive(Clone, Copy)]
pub(crate) struct Spoked<'a> {
    pub(crate) surface: &'a Surface,
    pub(crate) good: &'a GoodLabelling,
    pub(crate) kept: &'a DartSpokes,
}

impl Spoked<'_> {
    ghost use Rattle.walk_translate.specs.Spoked.{IsSpoked};

    /// Decides on two lists of vertices, if they are walks of the surface with common ends. The two forms are for its use, over
    /// more than four spokes.
    pub(crate) fn answer(
        &self,
        one: &mut Hyper,
        other: &mut Hyper,
        first: &Walk,
        second: &Walk,
    ) -> Result<Option<Answer>, AllocError>
        requires { IsSpoked self.now }
        ensures { IfOk result (IsFoundOn self.now.surface.now.mesh first.now second.now) }
    {
        if self.good.labelling().degree() == 4 {
            self.answer_by(&mut Flat::new(), &mut Flat::new(), first, second)
        } else {
            one.restart();
            other.restart();
            self.answer_by(one, other, first, second)
        }
    }

    /// Decides by two forms that are in the state of the empty word, where states of such forms decide.
    fn answer_by<F: Form>(
        &self,
        one: &mut F,
        other: &mut F,
        first: &Walk,
        second: &Walk,
    ) -> Result<Option<Answer>, AllocError>
        requires spoked { IsSpoked self.now }
        requires own { F.IsOwn self.now.good.now.places }
        requires one { F.state one.old ≡ F.empty }
        requires other { F.state other.old ≡ F.empty }
        requires room { 2 ^ 32 - 2 ≤ F.limit }
        requires decides { (walk twin : List ℕ) → AreWalkPair self.now.surface.now.mesh walk twin
            → Homotopic self.now.surface.now.mesh walk twin
            ↔ (led F.next self.now.good.now.places F.empty (quad_path self.now.surface.now.mesh self.now.good.now walk)
            ≡ led F.next self.now.good.now.places F.empty (quad_path self.now.surface.now.mesh self.now.good.now twin)) }
        ensures { IfOk result (IsFoundOn self.now.surface.now.mesh first.now second.now) }
    {
        if !have_common_ends(first, second)
            || !self.fold(one, first)?
            || !self.fold(other, second)?
        {
            return Ok(None);
        }
        if one.same(other) {
            Ok(Some(Answer::Homotopic))
        } else {
            Ok(Some(Answer::Different))
        }
    }

    /// The word of a walk, or none where this is no walk of the surface.
    pub(crate) fn word(&self, alloc: Global, walk: &Walk) -> Result<Option<Word>, AllocError>
        requires { IsSpoked self.now }
        ensures { IfOk result (IsWordFound self.now.surface.now.mesh (IsWordOf self.now.surface.now.mesh self.now.good.now) walk.now) }
    {
        if self.good.labelling().degree() == 4 {
            self.end_in_plane(walk)
        } else {
            self.canonical_word(alloc, walk)
        }
    }

    /// The same over four spokes: where the walk leads in the plane.
    fn end_in_plane(&self, walk: &Walk) -> Result<Option<Word>, AllocError>
        requires spoked { IsSpoked self.now }
        requires four { self.now.good.now.degree ≡ 4 }
        ensures { IfOk result (IsWordFound self.now.surface.now.mesh (IsWordOf self.now.surface.now.mesh self.now.good.now) walk.now) }
    {
        let mut form = Flat::new();
        if !self.fold(&mut form, walk)? {
            return Ok(None);
        }
        let (x, y) = (form.x(), form.y());
        Ok(Some(Word::Flat { x, y }))
    }

    /// The same over more: the canonical word of its turns. Room for two entries a dart is made at once.
    fn canonical_word(&self, alloc: Global, walk: &Walk) -> Result<Option<Word>, AllocError>
        requires spoked { IsSpoked self.now }
        requires more { self.now.good.now.degree ≡ 4 → ⊥ }
        ensures { IfOk result (IsWordFound self.now.surface.now.mesh (IsWordOf self.now.surface.now.mesh self.now.good.now) walk.now) }
    {
        let mut form = Hyper::new(alloc);
        form.reserve(2 * walk.darts())?;
        if !self.fold(&mut form, walk)? {
            return Ok(None);
        }
        Ok(Some(Word::Turns(form.word(alloc)?)))
    }

    /// Puts the spokes of a walk's darts into a form, in order, if the vertices are a walk of the surface, and tells whether
    /// they are. Each dart is looked up once.
    pub(crate) fn fold<F: Form>(&self, form: &mut F, walk: &Walk) -> Result<bool, AllocError>
        requires spoked { IsSpoked self.now }
        requires belongs { F.Belongs self.now.good.now.places (F.state form.old) }
        requires room { F.size (F.state form.old) + (2 ^ 32 - 2) ≤ F.limit }
        ensures walk { IfOk result (λ found. IsTrue found ↔ IsWalk self.now.surface.now.mesh walk.now) }
        ensures state { IfOk result (λ found. IsTrue found → F.state form.new
            ≡ led F.next self.now.good.now.places (F.state form.old)
            (quad_path self.now.surface.now.mesh self.now.good.now walk.now)) }
    {
        let sides = self.surface.sides();
        if !sides.used(walk.at(0)) {
            return Ok(false);
        }
        for dart in 0..walk.darts() {
            let (from, to) = (walk.at(dart), walk.at(dart + 1));
            let Some(edge) = self.kept.edge_between(sides, from, to) else {
                return Ok(false);
            };
            put_spokes(
                self.good.wheel(),
                form,
                self.kept.along(edge, from, to),
                &mut Silent,
            )?;
        }
        Ok(true)
    }
}
