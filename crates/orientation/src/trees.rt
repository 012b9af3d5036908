//! Trees of faces, as the search for signs grows them.
ghost use Rattle.std.specs.Prelude.{◌≡◌, ℕ, ◌<◌, ◌≤◌, ◌^◌, length, IfOk};

use std::alloc::{AllocError, Global};
use std::marker::Model;
use surf_model::{FaceName, Side, Signs};

/// Where a face stands in its tree.
#[derive(Clone, Copy, Debug, PartialEq, Eq)]
pub(crate) struct Place {
    /// How many steps it is from the first face of the tree.
    pub depth: u32,
    /// The side across which it was found. The first face was not found across a side, and any stands there.
    pub from: Side,
}

/// For each face whether it was seen, its sign, and its place.
#[derive(Debug, Drop)]
pub(crate) struct Trees {
    seen: Vec<bool>,
    flipped: Vec<bool>,
    places: Vec<Place>,
}

impl Model for Trees {
    ghost use Rattle.std.specs.Prelude.{◌≡◌, length};
    ghost use Rattle.orientation.specs.Trees.{Growth};

    ghost Value = { Growth };

    ghost view = { λ a. record { seen = a.seen.items; flipped = a.flipped.items; places = a.places.items } };

    ghost invariant = { λ a. (length a.flipped.items ≡ length a.seen.items) × (length a.places.items ≡ length a.seen.items) };
}

impl Trees {
    ghost use Rattle.surf_model.specs.Surfaces.{is_flipped};
    ghost use Rattle.orientation.specs.Trees.{Growth, unseen, is_seen, tree_place_of, with_tree_face};

    /// Of so many faces none is seen.
    pub fn new(alloc: Global, faces: u32) -> Result<Trees, AllocError>
        ensures { IfOk result (λ trees. trees ≡ unseen faces) }
    {
        let place = Place {
            depth: 0,
            from: Side {
                face: FaceName(0),
                at: 0,
            },
        };
        Ok(Trees {
            seen: vec![in alloc; false; faces as usize]?,
            flipped: vec![in alloc; false; faces as usize]?,
            places: vec![in alloc; place; faces as usize]?,
        })
    }

    /// Whether a face was seen.
    pub fn seen(&self, face: FaceName) -> bool
        requires { face.0 < length self.now.seen }
        ensures { result ≡ is_seen self.now face.0 }
    {
        self.seen[face.0 as usize]
    }

    /// Whether a face is flipped.
    pub fn flipped(&self, face: FaceName) -> bool
        requires { face.0 < length self.now.seen }
        ensures { result ≡ is_flipped self.now.flipped face.0 }
    {
        self.flipped[face.0 as usize]
    }

    /// The place of a face.
    pub fn place(&self, face: FaceName) -> Place
        requires { face.0 < length self.now.seen }
        ensures { result ≡ tree_place_of self.now face.0 }
    {
        self.places[face.0 as usize]
    }

    /// Puts a face into a tree.
    pub fn put(&mut self, face: FaceName, flipped: bool, place: Place)
        requires { face.0 < length self.old.seen }
        ensures { self.new ≡ with_tree_face self.old face.0 flipped place }
    {
        self.seen[face.0 as usize] = true;
        self.flipped[face.0 as usize] = flipped;
        self.places[face.0 as usize] = place;
    }

    /// The signs of all faces.
    pub fn signs(&self, alloc: Global) -> Result<Signs, AllocError>
        requires { length self.now.seen < 2 ^ 32 }
        ensures { IfOk result (λ signs. signs ≡ self.now.flipped) }
    {
        let mut signs = Signs::new(alloc);
        for flipped in &self.flipped {
            signs.push(*flipped)?;
        }
        Ok(signs)
    }
}
