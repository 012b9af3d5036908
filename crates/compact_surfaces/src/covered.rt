//! Closed manifolds without coherent signs, asked by way of their cover.
ghost use Rattle.std.specs.Prelude.{◌≡◌, ◌<◌, ℕ, length, map, IfOk, IfErr, MatchOption};
ghost use Rattle.surf_model.specs.Edges.{IsTableOf};
ghost use Rattle.walk_translate.specs.Found.{IsFoundOn};
ghost use Rattle.component_deciding.specs.WordFinders.{mesh_of_finder};
ghost use Rattle.orientation_cover.specs.Turns.{lift_by};
ghost use Rattle.orientation_cover.specs.Ways.{AreWays};
ghost use Rattle.surf_model.specs.Walks.{IsWalk, walk_at};
ghost use Rattle.compact_surfaces.specs.Answered.{IsCovered};
ghost use Rattle.walk_classes.specs.Faults.{IsClassFault, IsFirstNoWalk};
ghost use Rattle.walk_classes.specs.WalkClasses.{AreClasses};

use crate::covered_mesh::CoveredMesh;
use component_deciding::WordFinder;
use orientation_cover::{WaysRound, lift};
use std::alloc::{AllocError, Global};
use std::marker::Model;
use surf_model::{Answer, Faces, Sides, Walk};
use walk_classes::{ClassFault, classes_by};
use walk_translate::{are_pair, is_walk};

/// A closed manifold without coherent signs, and the words of its cover. Contracts see its mesh.
#[derive(Drop)]
pub struct Covered {
    alloc: Global,
    faces: Faces,
    sides: Sides,
    ways: WaysRound,
    finder: WordFinder,
}

impl Model for Covered {
    ghost use Rattle.surf_model.specs.FaceLists.{FaceList};
    ghost use Rattle.component_deciding.specs.WordFinders.{mesh_of_finder};
    ghost use Rattle.compact_surfaces.specs.Kept.{IsCoverKept};

    ghost Value = { FaceList };

    ghost view = { λ a. a.faces };

    ghost invariant = { λ a. IsCoverKept a.faces a.sides a.ways (mesh_of_finder a.finder) };
}

impl Covered {
    /// One of which questions may be asked.
    pub(crate) fn of(alloc: Global, covered: CoveredMesh) -> Result<Covered, AllocError>
        requires { IsCovered covered }
        ensures { IfOk result (λ made. made ≡ covered.mesh.faces) }
    {
        let finder = WordFinder::of(alloc, covered.cover, u64::MAX)?;
        Ok(Covered {
            alloc,
            faces: covered.mesh.faces,
            sides: covered.mesh.sides,
            ways: covered.ways,
            finder,
        })
    }

    /// Decides whether two walks are homotopic, or tells by `None` that they are no walks of the manifold with common ends.
    pub(crate) fn answer_if_pair(
        &mut self,
        first: &Walk,
        second: &Walk,
    ) -> Result<Option<Answer>, AllocError>
        ensures same { self.new ≡ self.old }
        ensures answer { IfOk result (IsFoundOn self.old first.now second.now) }
    {
        let alloc = self.alloc;
        // The proof reads what holds of every face list.
        let _ = self.faces.len();
        if !are_pair(&self.faces, &self.sides, first, second) {
            return Ok(None);
        }
        let one = lift(alloc, &self.faces, &self.sides, &self.ways, first)?;
        let other = lift(alloc, &self.faces, &self.sides, &self.ways, second)?;
        match self.finder.answer_if_pair(&one, &other)? {
            Some(answer) => Ok(Some(answer)),
            // The lifts begin together, and end on two sheets.
            None => Ok(Some(Answer::Different)),
        }
    }

    /// The numbers of the classes of walks, which are those of their lifts; or the first list that is no walk of the manifold.
    pub(crate) fn classes(&mut self, walks: &[Walk]) -> Result<Vec<usize>, ClassFault>
        ensures same { self.new ≡ self.old }
        ensures classes { IfOk result (λ numbers. AreClasses self.old walks.now numbers.items) }
        ensures fault { IfErr result (IsClassFault self.old walks.now) }
    {
        let alloc = self.alloc;
        // The proof reads what holds of every face list.
        let _ = self.faces.len();
        if let Some(place) = first_no_walk(&self.faces, &self.sides, walks) {
            return Err(ClassFault::NoWalk { place });
        }
        let lifts = lifts_of(alloc, &self.faces, &self.sides, &self.ways, walks)?;
        let numbers = classes_by(alloc, &mut self.finder, &lifts);
        // By a call, which is proved once, and not here again.
        drop(lifts);
        numbers
    }

    /// The edge table of the manifold.
    pub(crate) fn sides(&self) -> &Sides
        ensures { IsTableOf self.now result.now }
    {
        &self.sides
    }
}

/// The first list that is no walk of the mesh, by its place.
fn first_no_walk(faces: &Faces, sides: &Sides, walks: &[Walk]) -> Option<usize>
    requires { IsTableOf faces.now sides.now }
    ensures { MatchOption result ((i : ℕ) → i < length walks.now → IsWalk faces.now (walk_at walks.now i))
        (IsFirstNoWalk faces.now walks.now) }
{
    for place in 0..walks.len() {
        if !is_walk(faces, sides, &walks[place]) {
            return Some(place);
        }
    }
    None
}

/// The lifts of walks to the cover by ways round the vertices.
fn lifts_of(
    alloc: Global,
    faces: &Faces,
    sides: &Sides,
    ways: &WaysRound,
    walks: &[Walk],
) -> Result<Vec<Walk>, AllocError>
    requires table { IsTableOf faces.now sides.now }
    requires ways { AreWays faces.now ways.now }
    requires walks { (i : ℕ) → i < length walks.now → IsWalk faces.now (walk_at walks.now i) }
    ensures { IfOk result (λ lifts. lifts.items ≡ map (lift_by faces.now ways.now) walks.now) }
{
    let mut lifts = Vec::with_capacity(alloc, walks.len())?;
    for place in 0..walks.len() {
        let above = lift(alloc, faces, sides, ways, &walks[place])?;
        lifts.push(above)?;
    }
    Ok(lifts)
}
