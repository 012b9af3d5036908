//! Which faces of a mesh are turned round.
ghost use Rattle.std.specs.Prelude.{◌≡◌, ◌+◌, ◌<◌, ◌^◌, false, [], ◌∷◌, ◌++◌, length, replicate, IfOk, OnOk, OnErr};
ghost use Rattle.surf_model.specs.Surfaces.{is_flipped};

use crate::names::FaceName;
use std::alloc::{AllocError, Global};
use std::marker::Model;

/// A sign for each face, by rising faces: `true` for a face that is flipped, `false` for one that is kept.
///
/// Whether the signs are coherent is a matter of the mesh: here any signs may stand.
#[derive(Debug, Drop)]
pub struct Signs {
    flipped: Vec<bool>,
}

impl Model for Signs {
    ghost use Rattle.std.specs.Prelude.{Bool, ◌<◌, ◌^◌, List, length};

    ghost Value = { List Bool };

    ghost view = { λ a. a.flipped.items };

    ghost invariant = { λ a. length a.flipped.items < 2 ^ 32 };
}

impl Signs {
    /// No signs. It takes no memory.
    pub fn new(alloc: Global) -> Signs
        ensures { result ≡ [] }
    {
        Signs {
            flipped: Vec::new(alloc),
        }
    }

    /// Signs that keep all of so many faces.
    pub fn kept(alloc: Global, faces: u32) -> Result<Signs, AllocError>
        ensures { IfOk result (λ signs. signs ≡ replicate faces false) }
    {
        Ok(Signs {
            flipped: vec![in alloc; false; faces as usize]?,
        })
    }

    /// Puts the sign of the next face last.
    pub fn push(&mut self, flipped: bool) -> Result<(), AllocError>
        requires { length self.old + 1 < 2 ^ 32 }
        ensures ok { OnOk result (self.new ≡ self.old ++ flipped ∷ []) }
        ensures err { OnErr result (self.new ≡ self.old) }
    {
        self.flipped.push(flipped)?;
        Ok(())
    }

    /// The number of signs.
    pub fn len(&self) -> u32
        ensures { result ≡ length self.now }
    {
        self.flipped.len() as u32
    }

    /// Whether a face is flipped.
    pub fn flipped(&self, face: FaceName) -> bool
        requires { face.0 < length self.now }
        ensures { result ≡ is_flipped self.now face.0 }
    {
        self.flipped[face.0 as usize]
    }
}
