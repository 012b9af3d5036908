//! The rings of a set of edges.
ghost use Rattle.std.specs.Prelude.{◌≡◌, ◌<◌, false, not, length, replicate, slice_index, slice_set, IfOk};
ghost use Rattle.tree_cotree.specs.RingViews.{RingView, AreRingsOf, ChangesByOne, is_inside};

use halfedge_map::Surface;
use std::alloc::{AllocError, Global};
use std::marker::Model;
use surf_model::{DartName, EdgeName};

/// A set of edges of a surface, and for each dart the one that comes after it: the next dart of its face if its edge is
/// in the set, and else the next dart of its twin's face. The darts then make rings.
#[derive(Debug, Drop)]
pub struct Rings {
    /// For each edge whether it is in the set.
    inside: Vec<bool>,
    /// For each dart the one after it.
    after: Vec<DartName>,
}

impl Model for Rings {
    ghost use Rattle.tree_cotree.specs.RingViews.{RingView, dart_numbers};

    ghost Value = { RingView };

    ghost view = { λ a. record { inside = a.inside.items; after = dart_numbers a.after.items } };
}

impl Rings {
    /// The rings of the empty set, which go round the vertices.
    pub fn start(alloc: Global, surface: &Surface) -> Result<Rings, AllocError>
        ensures rings { IfOk result (AreRingsOf surface.now) }
        ensures empty { IfOk result (λ rings. rings.inside ≡ replicate (length surface.now.table) false) }
    {
        let inside = vec![in alloc; false; surface.sides().len() as usize]?;
        let mut after = Vec::with_capacity(alloc, surface.darts() as usize)?;
        for dart in 0..surface.darts() {
            let twin = surface.twin(DartName(dart));
            after.push(surface.next(twin))?;
        }
        Ok(Rings { inside, after })
    }

    /// Puts an edge into the set, or takes it out. The number of rings changes by one.
    pub fn swap(&mut self, surface: &Surface, edge: EdgeName)
        requires rings { AreRingsOf surface.now self.old }
        requires edge { edge.0 < length surface.now.table }
        ensures rings { AreRingsOf surface.now self.new }
        ensures set { self.new.inside ≡ slice_set self.old.inside edge.0 (not (is_inside self.old.inside edge.0)) }
        ensures count { ChangesByOne surface.now edge.0 self.old self.new }
    {
        let dart = surface.dart_of(edge);
        let twin = surface.twin(dart);
        self.after.swap(dart.0 as usize, twin.0 as usize);
        let inside = !self.inside[edge.0 as usize];
        self.inside[edge.0 as usize] = inside;
    }

    /// The dart after a dart on its ring.
    pub fn after(&self, dart: DartName) -> DartName
        requires { dart.0 < length self.now.after }
        ensures { result.0 ≡ slice_index self.now.after dart.0 }
    {
        self.after[dart.0 as usize]
    }
}
