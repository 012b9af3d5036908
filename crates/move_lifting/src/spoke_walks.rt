//! The loops of the spokes of a polygon, as walks without spurs.
ghost use Rattle.std.specs.Prelude.{◌≡◌, ◌↔◌, ◌<◌, ◌∷◌, [], ◌++◌, ℕ, List, false, true, if◌then◌else◌, length, slice_index_or, IfOk, OnOk, All, IsTrue};
ghost use Rattle.surf_model.specs.FaceLists.{is_used};
ghost use Rattle.surf_model.specs.FreeWalks.{AreFreelyEqual, HasNoSpur};
ghost use Rattle.surf_model.specs.Vertices.{numbers};
ghost use Rattle.halfedge_map.specs.DartMaps.{darts_of};
ghost use Rattle.polygon_cut.specs.SpokeLoops.{AreWaysUp, backward, dart_loop};
ghost use Rattle.move_lifting.specs.Cuts.{IsCut};
ghost use Rattle.move_lifting.specs.SpokeWalks.{AreSpokeWalks, HasWalk};

use crate::cut::Cut;
use crate::laying::{put_vertex, walk_of_one};
use crate::tree_way::put_over;
use std::alloc::{AllocError, Global};
use std::marker::Model;
use surf_model::{DartName, VertexName};

/// Where a walk lies among the vertices of all walks.
#[derive(Clone, Copy)]
struct Place {
    start: usize,
    end: usize,
}

/// The walks of spokes by their numbers, each kept backward. One that was not made has no vertices.
#[derive(Drop)]
pub(crate) struct SpokeWalks {
    places: Vec<Place>,
    /// The vertices of all walks, walk after walk.
    vertices: Vec<VertexName>,
}

impl Model for SpokeWalks {
    ghost use Rattle.std.specs.Prelude.{ℕ, List};
    ghost use Rattle.move_lifting.specs.StoredWalks.{ArePlacesWithin, stored_walks};

    ghost Value = { List (List ℕ) };

    ghost view = { λ a. stored_walks a.places.items a.vertices.items };

    ghost invariant = { λ a. ArePlacesWithin a.places.items a.vertices.items };
}

impl SpokeWalks {
    /// No walks. It takes no memory.
    pub(crate) fn new(alloc: Global) -> SpokeWalks
        ensures { result ≡ [] }
    {
        SpokeWalks {
            places: Vec::new(alloc),
            vertices: Vec::new(alloc),
        }
    }

    /// Makes the walks of these spokes, where they were not made yet.
    pub(crate) fn make(
        &mut self,
        alloc: Global,
        cut: &Cut<'_>,
        front: &[u32],
    ) -> Result<(), AllocError>
        requires cut { IsCut cut.now }
        requires front { All (λ spoke. spoke < cut.now.polygon.now.degree) front.now }
        requires walks { AreSpokeWalks cut.now.on.surface.now cut.now.on.split.now cut.now.polygon.now self.old }
        ensures walks { OnOk result (AreSpokeWalks cut.now.on.surface.now cut.now.on.split.now cut.now.polygon.now self.new) }
        ensures made { OnOk result (All (HasWalk self.new) front.now) }
    {
        if self.has_all(front) {
            return Ok(());
        }
        let named = self.named_with(alloc, cut.polygon.degree(), front)?;
        *self = SpokeWalks::of(alloc, cut, &named)?;
        Ok(())
    }

    /// The walks of the spokes that are named, at the vertex where the last side starts.
    fn of(alloc: Global, cut: &Cut<'_>, named: &[bool]) -> Result<SpokeWalks, AllocError>
        requires cut { IsCut cut.now }
        requires named { length named.now ≡ cut.now.polygon.now.degree }
        ensures walks { IfOk result (AreSpokeWalks cut.now.on.surface.now cut.now.on.split.now cut.now.polygon.now) }
        ensures made { IfOk result (λ walks. (spoke : ℕ) → slice_index_or named.now spoke false ≡ true → HasWalk walks spoke) }
    {
        let polygon = cut.polygon;
        let degree = polygon.degree();
        let start = cut.on.surface.origin(polygon.side(degree - 1));
        let mut walks = SpokeWalks::new(alloc);
        // The walk of the spoke at hand.
        let mut walk = walk_of_one(alloc, start)?;
        for spoke in 0..degree {
            walks.push_if(named[spoke as usize], &walk)?;
            go_round(alloc, cut, &mut walk, start, polygon.side(spoke))?;
        }
        Ok(walks)
    }

    /// For each of so many spokes, whether its walk was made or it is one of these.
    fn named_with(&self, alloc: Global, degree: u32, front: &[u32]) -> Result<Vec<bool>, AllocError>
        requires { All (λ spoke. spoke < degree) front.now }
        ensures long { IfOk result (λ named. length named.items ≡ degree) }
        ensures named { IfOk result (λ named. All (λ spoke. slice_index_or named.items spoke false ≡ true) front.now) }
    {
        let mut named = Vec::with_capacity(alloc, degree as usize)?;
        for spoke in 0..degree {
            named.push(self.has(spoke))?;
        }
        for spoke in front {
            named[*spoke as usize] = true;
        }
        Ok(named)
    }

    /// Tells whether the walks of all these spokes were made.
    fn has_all(&self, front: &[u32]) -> bool
        ensures { IsTrue result → All (HasWalk self.now) front.now }
    {
        for spoke in front {
            if !self.has(*spoke) {
                return false;
            }
        }
        true
    }

    /// Tells whether the walk of a spoke was made.
    fn has(&self, spoke: u32) -> bool
        ensures { IsTrue result ↔ HasWalk self.now spoke }
    {
        (spoke as usize) < self.places.len() && !self.get(spoke).is_empty()
    }

    /// The walk with a number.
    pub(crate) fn get(&self, spoke: u32) -> &[VertexName]
        requires { spoke < length self.now }
        ensures { numbers result.now ≡ slice_index_or self.now spoke [] }
    {
        let place = self.places[spoke as usize];
        &self.vertices[place.start..place.end]
    }

    /// Puts a walk last if it is named, and else no vertices in its place.
    fn push_if(&mut self, is_named: bool, walk: &[VertexName]) -> Result<(), AllocError>
        ensures { OnOk result (self.new ≡ self.old ++ (if is_named then numbers walk.now else []) ∷ []) }
    {
        if is_named {
            self.push(walk)
        } else {
            self.push(&[])
        }
    }

    /// Puts a walk last.
    fn push(&mut self, walk: &[VertexName]) -> Result<(), AllocError>
        ensures { OnOk result (self.new ≡ self.old ++ numbers walk.now ∷ []) }
    {
        let start = self.vertices.len();
        self.vertices.extend_from_slice(walk)?;
        let end = self.vertices.len();
        self.places.push(Place { start, end })?;
        Ok(())
    }
}

/// Goes on from a vertex up the tree and along the loop of a dart, and down the tree to that vertex, without spurs.
fn go_round(
    alloc: Global,
    cut: &Cut<'_>,
    walk: &mut Vec<VertexName>,
    start: VertexName,
    dart: DartName,
) -> Result<(), AllocError>
    requires cut { IsCut cut.now }
    requires some { 0 < length walk.old.items }
    requires no_spur { HasNoSpur (numbers walk.old.items) }
    requires start { is_used cut.now.on.surface.now.mesh start.0 ≡ true }
    requires dart { dart.0 < darts_of cut.now.on.surface.now }
    ensures some { OnOk result (0 < length walk.new.items) }
    ensures no_spur { OnOk result (HasNoSpur (numbers walk.new.items)) }
    ensures freely { OnOk result ((root : ℕ) (ways : ℕ → List ℕ) → AreWaysUp cut.now.on.surface.now cut.now.on.split.now root ways
        → AreFreelyEqual cut.now.on.surface.now.mesh
        (numbers walk.old.items ++ (ways start.0 ++ (dart_loop cut.now.on.surface.now ways dart.0 ++ backward start.0 (ways start.0))))
        (numbers walk.new.items)) }
{
    let surface = cut.on.surface;
    let tail = surface.origin(dart);
    let head = surface.origin(surface.twin(dart));
    put_over(alloc, &cut.on, walk, start, tail)?;
    put_vertex(walk, head)?;
    put_over(alloc, &cut.on, walk, head, start)
}
