//! Chains of faces, each joined to the next one across an edge. Such a chain may show that a mesh has no orientation.
ghost use Rattle.std.specs.Prelude.{◌≡◌, ◌+◌, ◌<◌, ◌^◌, [], ◌∷◌, ◌++◌, length, slice_get, Some, OnOk, OnErr, IfOk};

use crate::names::{FaceName, VertexName};
use std::alloc::{AllocError, Global};
use std::marker::Model;

/// A link of a chain: a face, and the edge across which the chain goes on, by its two vertices.
#[derive(Clone, Copy, Debug, PartialEq, Eq)]
pub struct ChainLink {
    pub face: FaceName,
    pub low: VertexName,
    pub high: VertexName,
}

/// A non-empty list of links.
///
/// Whether it is an odd chain of a mesh is a matter of the mesh: here any links may stand.
#[derive(Debug, Drop)]
pub struct OddChain {
    links: Vec<ChainLink>,
}

impl Model for OddChain {
    ghost use Rattle.std.specs.Prelude.{◌<◌, ◌^◌, List, length};
    ghost use Rattle.surf_model.specs.declared.chains.ChainLink.{ChainLink};

    ghost Value = { List ChainLink };

    ghost view = { λ a. a.links.items };

    ghost invariant = { λ a. (0 < length a.links.items) × (length a.links.items < 2 ^ 32) };
}

impl OddChain {
    /// The chain of one link.
    pub fn start(alloc: Global, link: ChainLink) -> Result<OddChain, AllocError>
        ensures { IfOk result (λ chain. chain ≡ link ∷ []) }
    {
        let mut links = Vec::new(alloc);
        links.push(link)?;
        Ok(OddChain { links })
    }

    /// Puts a link last.
    pub fn push(&mut self, link: ChainLink) -> Result<(), AllocError>
        requires { length self.old + 1 < 2 ^ 32 }
        ensures ok { OnOk result (self.new ≡ self.old ++ link ∷ []) }
        ensures err { OnErr result (self.new ≡ self.old) }
    {
        self.links.push(link)?;
        Ok(())
    }

    /// The number of links.
    pub fn len(&self) -> u32
        ensures count { result ≡ length self.now }
        // What holds of every chain.
        ensures some_link { 0 < length self.now }
    {
        self.links.len() as u32
    }

    /// Link `k`, counted from 0.
    pub fn at(&self, k: u32) -> ChainLink
        requires { k < length self.now }
        ensures { slice_get self.now k ≡ Some result }
    {
        self.links[k as usize]
    }
}
