//! Walks along the edges of a mesh.
ghost use Rattle.std.specs.Prelude.{◌≡◌, ◌+◌, ◌<◌, ◌≤◌, ◌^◌, [], ◌∷◌, ◌++◌, length, slice_index, OnOk, OnErr, IfOk};
ghost use Rattle.surf_model.specs.Vertices.{numbers};
ghost use Rattle.surf_model.specs.Walks.{darts};

use crate::names::VertexName;
use std::alloc::{AllocError, Global};
use std::marker::Model;

/// A non-empty list of vertices with fewer than 2^31 darts, the pairs of neighbours in it.
///
/// Whether it is a walk of a mesh is a matter of the mesh: here any numbers may stand.
#[derive(Debug, Drop)]
pub struct Walk {
    vertices: Vec<VertexName>,
}

impl Model for Walk {
    ghost use Rattle.std.specs.Prelude.{ℕ, ◌<◌, ◌≤◌, ◌^◌, List, length};
    ghost use Rattle.surf_model.specs.Vertices.{numbers};

    ghost Value = { List ℕ };

    ghost view = { λ a. numbers a.vertices.items };

    ghost invariant = { λ a. (0 < length a.vertices.items) × (length a.vertices.items ≤ 2 ^ 31) };
}

impl Walk {
    /// The walk of one vertex.
    pub fn new(alloc: Global, start: VertexName) -> Result<Walk, AllocError>
        ensures { IfOk result (λ walk. walk ≡ start.0 ∷ []) }
    {
        let mut vertices = Vec::new(alloc);
        vertices.push(start)?;
        Ok(Walk { vertices })
    }

    /// The walk of these vertices, in memory for them alone.
    pub fn of(alloc: Global, vertices: &[VertexName]) -> Result<Walk, AllocError>
        requires some { 0 < length vertices.now }
        requires few { length vertices.now ≤ 2 ^ 31 }
        ensures { IfOk result (λ walk. walk ≡ numbers vertices.now) }
    {
        Ok(Walk {
            vertices: Vec::from_slice(alloc, vertices)?,
        })
    }

    /// Goes on to a vertex, which becomes the last one.
    pub fn push(&mut self, to: VertexName) -> Result<(), AllocError>
        requires { darts self.old + 1 < 2 ^ 31 }
        ensures ok { OnOk result (self.new ≡ self.old ++ to.0 ∷ []) }
        ensures err { OnErr result (self.new ≡ self.old) }
    {
        self.vertices.push(to)?;
        Ok(())
    }

    /// The number of darts: one less than the number of entries.
    pub fn darts(&self) -> u32
        ensures count { result ≡ darts self.now }
        // What holds of every walk.
        ensures starts { 0 < length self.now }
        ensures few { result < 2 ^ 31 }
    {
        self.vertices.len() as u32 - 1
    }

    /// The vertex at a place, counted from 0.
    pub fn at(&self, place: u32) -> VertexName
        requires { place ≤ darts self.now }
        ensures { result.0 ≡ slice_index self.now place }
    {
        self.vertices[place as usize]
    }

    /// An equal walk.
    pub fn copy(&self) -> Result<Walk, AllocError>
        ensures { IfOk result (λ walk. walk ≡ self.now) }
    {
        Ok(Walk {
            vertices: self.vertices.clone()?,
        })
    }
}
