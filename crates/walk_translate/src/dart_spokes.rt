//! The spokes of all darts of a mesh, each found once for many walks.
ghost use Rattle.std.specs.Prelude.{◌≡◌, ◌⊎◌, ◌+◌, ◌*◌, ◌<◌, ◌≤◌, length, is_some, IsTrue, IfOk, IfSome};
ghost use Rattle.surf_model.specs.FaceLists.{FaceList, is_edge};
ghost use Rattle.surf_model.specs.Edges.{IsTableOf, HasEnds, edge_in};
ghost use Rattle.labellings.specs.GoodLabellings.{IsGood};
ghost use Rattle.walk_translate.specs.DartSpokes.{AreSpokesOf, spokes_kept_at};

use labellings::GoodLabelling;
use std::alloc::{AllocError, Global};
use std::marker::Model;
use surf_model::{EdgeName, Faces, Sides, Spoke, VertexName};

/// How many guesses are kept for each edge, so that few edges have a number in common.
const GUESSES_AN_EDGE: usize = 2;

/// An odd factor, which spreads the numbers of neighbouring vertices over 32 bits.
const LOW_FACTOR: u32 = 0x9E37_79B1;

/// Another one, for how far apart the ends of an edge are.
const APART_FACTOR: u32 = 0x85EB_CA77;

/// The spokes of all darts of a mesh. Contracts see them in the order of the edges, two darts an edge: the one from its lower
/// vertex to its higher one, and the one back.
#[derive(Debug, Drop)]
pub(crate) struct DartSpokes {
    spokes: Vec<Option<(Spoke, Spoke)>>,
    /// Under the number that is made of the ends of an edge, that edge, or another with the same number.
    guesses: Vec<EdgeName>,
}

impl Model for DartSpokes {
    ghost use Rattle.std.specs.Prelude.{List, Option};
    ghost use Rattle.surf_model.specs.declared.names.Spoke.{Spoke};

    ghost Value = { List (Option (Spoke × Spoke)) };

    ghost view = { λ a. a.spokes.items };
}

impl DartSpokes {
    /// The spokes of all darts under a good labelling.
    pub(crate) fn build(
        alloc: Global,
        faces: &Faces,
        sides: &Sides,
        good: &GoodLabelling,
    ) -> Result<DartSpokes, AllocError>
        requires table { IsTableOf faces.now sides.now }
        requires good { IsGood faces.now good.now }
        ensures { IfOk result (AreSpokesOf faces.now good.now sides.now) }
    {
        let spokes = spokes_of_darts(alloc, faces, sides, good)?;
        let guesses = guesses_of(alloc, sides)?;
        Ok(DartSpokes { spokes, guesses })
    }

    /// The edge between two vertices, as the table of the mesh has it. The guess mostly is that edge, and then it is not
    /// looked for.
    pub(crate) fn edge_between(
        &self,
        sides: &Sides,
        from: VertexName,
        to: VertexName,
    ) -> Option<EdgeName>
        ensures found { IfSome result (λ edge. edge.0 < length sides.now) }
        ensures ends { IfSome result (λ edge. HasEnds from.0 to.0 (edge_in sides.now edge.0)) }
        ensures edge { (mesh : FaceList) → IsTableOf mesh sides.now → is_some result ≡ is_edge mesh from.0 to.0 }
    {
        let guess = self.guess(from, to);
        if is_between(sides, guess, from, to) {
            return Some(guess);
        }
        sides.between(from, to)
    }

    /// An edge that may join these vertices, or any other number.
    fn guess(&self, from: VertexName, to: VertexName) -> EdgeName {
        let (low, high) = in_order(from, to);
        let number = number_of(low, high, self.guesses.len());
        if number < self.guesses.len() {
            self.guesses[number]
        } else {
            EdgeName(0)
        }
    }

    /// The spokes of the dart along an edge from one of its ends to the other.
    pub(crate) fn along(
        &self,
        edge: EdgeName,
        from: VertexName,
        to: VertexName,
    ) -> Option<(Spoke, Spoke)>
        requires { 2 * edge.0 + 1 < length self.now }
        ensures there { from.0 < to.0 → result ≡ spokes_kept_at self.now (2 * edge.0) }
        ensures back { to.0 ≤ from.0 → result ≡ spokes_kept_at self.now (2 * edge.0 + 1) }
    {
        let back = if from.0 < to.0 { 0 } else { 1 };
        self.spokes[2 * edge.0 as usize + back]
    }
}

/// The spokes of the two darts along each edge.
fn spokes_of_darts(
    alloc: Global,
    faces: &Faces,
    sides: &Sides,
    good: &GoodLabelling,
) -> Result<Vec<Option<(Spoke, Spoke)>>, AllocError>
    requires table { IsTableOf faces.now sides.now }
    requires good { IsGood faces.now good.now }
    ensures { IfOk result (λ spokes. AreSpokesOf faces.now good.now sides.now spokes.items) }
{
    let mut spokes = Vec::with_capacity(alloc, 2 * sides.len() as usize)?;
    for edge in 0..sides.len() {
        let (low, high) = sides.ends(EdgeName(edge));
        spokes.push(good.spokes(faces, sides, low, high))?;
        spokes.push(good.spokes(faces, sides, high, low))?;
    }
    Ok(spokes)
}

/// For each number an edge that has it, where one does.
fn guesses_of(alloc: Global, sides: &Sides) -> Result<Vec<EdgeName>, AllocError> {
    let count = GUESSES_AN_EDGE * sides.len() as usize;
    let mut guesses = vec![in alloc; EdgeName(0); count]?;
    for edge in 0..sides.len() {
        let (low, high) = sides.ends(EdgeName(edge));
        let number = number_of(low, high, count);
        if number < guesses.len() {
            guesses[number] = EdgeName(edge);
        }
    }
    Ok(guesses)
}

/// A number below a count that two vertices make: neighbouring edges mostly have different ones.
fn number_of(low: VertexName, high: VertexName, count: usize) -> usize {
    let apart = high.0.wrapping_sub(low.0);
    let mixed = low
        .0
        .wrapping_mul(LOW_FACTOR)
        .wrapping_add(apart.wrapping_mul(APART_FACTOR));
    (u64::from(mixed).wrapping_mul(count as u64) >> 32) as usize
}

/// Whether a number is that of the edge between two vertices.
fn is_between(sides: &Sides, edge: EdgeName, from: VertexName, to: VertexName) -> bool
    ensures within { IsTrue result → edge.0 < length sides.now }
    ensures ends { IsTrue result → HasEnds from.0 to.0 (edge_in sides.now edge.0) }
{
    edge.0 < sides.len() && sides.ends(edge) == in_order(from, to)
}

/// Two vertices, the lower first.
fn in_order(from: VertexName, to: VertexName) -> (VertexName, VertexName)
    ensures { (from.0 ≡ result.0.0) × (to.0 ≡ result.1.0) ⊎ (from.0 ≡ result.1.0) × (to.0 ≡ result.0.0) }
{
    if from < to { (from, to) } else { (to, from) }
}
