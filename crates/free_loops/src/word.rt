//! The free word of a closed walk, by which closed walks are told apart but for free homotopy.
ghost use Rattle.std.specs.Prelude.{◌≡◌, ◌≤◌, ◌↔◌, [], IfOk, IsTrue, MatchOption};
ghost use Rattle.closed_walks.specs.FreeHomotopy.{IsClosedWalk};
ghost use Rattle.free_loops.specs.FreeWords.{DoDecideFree, IsFreeWordOf, IsFreeWordUnder};
ghost use Rattle.walk_translate.specs.SurfaceLabels.{HasSphereSplit, IsLabelledByCut};

use crate::form::cyclic_form_of;
use halfedge_map::Surface;
use labellings::{GoodLabelling, word_of};
use spoke_rings::least_rotation;
use std::alloc::{AllocError, Global};
use std::marker::Model;
use surf_model::Walk;
use turn_words::Word;

/// A closed list of spokes. Contracts see the list.
#[derive(Debug, Drop)]
pub struct FreeRing {
    spokes: Vec<u32>,
}

impl Model for FreeRing {
    ghost use Rattle.std.specs.Prelude.{List, ℕ};

    ghost Value = { List ℕ };

    ghost view = { λ ring. ring.spokes.items };
}

impl FreeRing {
    /// Its spokes, which are moved out of it.
    pub fn into_spokes(self) -> Vec<u32>
        ensures { result.items ≡ self }
    {
        let FreeRing { spokes } = self;
        spokes
    }
}

/// The free word of a closed walk under the labels of its surface.
#[derive(Debug, Drop)]
pub enum FreeWord {
    /// With two handles or more the least rotation of its cyclic form; on a sphere no spokes.
    Ring(FreeRing),
    /// On a torus its sum in the plane, in unit steps.
    Point { x: i64, y: i64 },
}

impl FreeWord {
    /// That of each closed walk on a sphere. It takes no memory.
    pub fn on_sphere(alloc: Global) -> FreeWord
        ensures { result ≡ FreeWord.Ring [] }
    {
        let spokes = Vec::new(alloc);
        FreeWord::Ring(FreeRing { spokes })
    }
}

/// The free word of a closed walk of a labelled surface; a sphere has no labels. Two closed walks are freely homotopic exactly where
/// their free words are one.
pub fn free_word(
    alloc: Global,
    surface: &Surface,
    labels: &Option<GoodLabelling>,
    walk: &Walk,
) -> Result<FreeWord, AllocError>
    requires labels { MatchOption labels.now (HasSphereSplit surface.now) (IsLabelledByCut surface.now) }
    requires walk { IsClosedWalk surface.now.mesh walk.now }
    ensures word { IfOk result (IsFreeWordUnder surface.now.mesh labels.now walk.now) }
    // What holds of the free words of every labelled surface.
    ensures decide { DoDecideFree surface.now.mesh (IsFreeWordUnder surface.now.mesh labels.now) }
{
    // The proof reads what holds of every surface.
    let _ = surface.faces();
    match labels {
        None => Ok(FreeWord::on_sphere(alloc)),
        Some(good) => free_word_of(alloc, surface, good, walk),
    }
}

/// The free word of a closed walk of a surface with handles.
fn free_word_of(
    alloc: Global,
    surface: &Surface,
    good: &GoodLabelling,
    walk: &Walk,
) -> Result<FreeWord, AllocError>
    requires labelled { IsLabelledByCut surface.now good.now }
    requires walk { IsClosedWalk surface.now.mesh walk.now }
    ensures { IfOk result (IsFreeWordOf surface.now.mesh good.now walk.now) }
{
    let faces = surface.faces();
    let sides = surface.sides();
    if good.labelling().degree() == 4 {
        let Word::Flat { x, y } = word_of(alloc, faces, sides, good, walk)? else {
            unreachable!()
        };
        return Ok(FreeWord::Point { x, y });
    }
    let form = cyclic_form_of(alloc, faces, sides, good, walk)?;
    let spokes = least_rotation(form);
    Ok(FreeWord::Ring(FreeRing { spokes }))
}

/// Tells whether two free words are one.
pub fn are_same_free_words(one: &FreeWord, other: &FreeWord) -> bool
    ensures { IsTrue result ↔ (one.now ≡ other.now) }
{
    match (one, other) {
        (FreeWord::Ring(one), FreeWord::Ring(other)) => one.spokes == other.spokes,
        (FreeWord::Point { x, y }, FreeWord::Point { x: right, y: up }) => x == right && y == up,
        _ => false,
    }
}
