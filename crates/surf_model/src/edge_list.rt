//! The edges as they lie in memory: their sides by number, edge after edge.
ghost use Rattle.std.specs.Prelude.{◌≡◌, ◌+◌, ◌<◌, ◌≤◌, [], ◌∷◌, ◌++◌, length, map, slice_index, OnOk, OnErr, IfOk};
ghost use Rattle.surf_model.specs.EdgeLists.{dart_edge_in, dart_count, dart_of};
ghost use Rattle.surf_model.specs.declared.limits.TheConstants.{MOST_SIDES};

use crate::counting::start_of;
use crate::names::{DartName, VertexName};
use std::alloc::{AllocError, Global};
use std::marker::Model;

/// The two vertices of an edge or of a side, the lower first.
#[derive(Clone, Copy, Debug, PartialEq, Eq, PartialOrd, Ord)]
pub(crate) struct EdgeEnds {
    pub(crate) low: VertexName,
    pub(crate) high: VertexName,
}

/// A side by its number, under a key.
///
/// While the sides of a lower vertex are sorted, the key of each is its higher vertex. Where sides are linked, the entry at
/// the number of a side has its edge as the key, and the next side of that edge. One vector serves for both, one after the
/// other, so that no memory has to be handed out for the second.
#[derive(Clone, Copy, Debug, PartialEq, Eq)]
pub(crate) struct SideEntry {
    pub(crate) key: u32,
    pub(crate) dart: DartName,
}

/// Edges with their two vertices and the numbers of their sides.
#[derive(Debug, Drop)]
pub(crate) struct EdgeList {
    /// For each edge its two vertices.
    pairs: Vec<EdgeEnds>,
    /// For each edge the place in `darts` where its sides end.
    stops: Vec<u32>,
    /// The sides of all edges, edge after edge.
    darts: Vec<DartName>,
}

impl Model for EdgeList {
    ghost use Rattle.std.specs.Prelude.{List};
    ghost use Rattle.surf_model.specs.EdgeLists.{DartEdge, IsEdgeList, stored_edges};

    ghost Value = { List DartEdge };

    ghost view = { λ a. stored_edges a.pairs.items a.stops.items a.darts.items };

    ghost invariant = { λ a. IsEdgeList a.pairs.items a.stops.items a.darts.items };
}

impl EdgeList {
    /// No edges, with room for so many sides, where an edge is taken to have two.
    pub(crate) fn with_room(alloc: Global, sides: u32) -> Result<EdgeList, AllocError>
        ensures { IfOk result (λ edges. edges ≡ []) }
    {
        Ok(EdgeList {
            pairs: Vec::with_capacity(alloc, sides as usize / 2)?,
            stops: Vec::with_capacity(alloc, sides as usize / 2)?,
            darts: Vec::with_capacity(alloc, sides as usize)?,
        })
    }

    /// Puts an edge last, whose sides are these.
    pub(crate) fn push(&mut self, ends: EdgeEnds, sides: &[SideEntry]) -> Result<(), AllocError>
        requires some { 0 < length sides.now }
        requires room { dart_count self.old + length sides.now ≤ MOST_SIDES }
        ensures { OnOk result (self.new
            ≡ self.old ++ record { low = ends.low.0; high = ends.high.0; darts = map dart_of sides.now } ∷ []) }
    {
        self.pairs.reserve(1)?;
        self.stops.reserve(1)?;
        append(&mut self.darts, sides)?;
        self.pairs.push(ends).unwrap();
        self.stops.push(self.darts.len() as u32).unwrap();
        Ok(())
    }

    /// The number of edges.
    pub(crate) fn len(&self) -> u32
        ensures { result ≡ length self.now }
    {
        self.stops.len() as u32
    }

    /// The two vertices of an edge.
    pub(crate) fn ends(&self, edge: u32) -> EdgeEnds
        requires { edge < length self.now }
        ensures low { result.low.0 ≡ (dart_edge_in self.now edge).low }
        ensures high { result.high.0 ≡ (dart_edge_in self.now edge).high }
    {
        self.pairs[edge as usize]
    }

    /// The number of sides of an edge.
    pub(crate) fn sides(&self, edge: u32) -> u32
        requires { edge < length self.now }
        ensures { result ≡ length (dart_edge_in self.now edge).darts }
    {
        self.stops[edge as usize] - start_of(&self.stops, edge)
    }

    /// Side `k` of an edge, by its number.
    pub(crate) fn dart(&self, edge: u32, k: u32) -> DartName
        requires edge { edge < length self.now }
        requires side { k < length (dart_edge_in self.now edge).darts }
        ensures { result.0 ≡ slice_index (dart_edge_in self.now edge).darts k }
    {
        self.darts[(start_of(&self.stops, edge) + k) as usize]
    }
}

/// Puts the numbers of these sides last.
fn append(darts: &mut Vec<DartName>, sides: &[SideEntry]) -> Result<(), AllocError>
    ensures ok { OnOk result (darts.new.items ≡ darts.old.items ++ map (λ side. side.dart) sides.now) }
    ensures err { OnErr result (darts.new.items ≡ darts.old.items) }
{
    darts.reserve(sides.len())?;
    for side in sides {
        darts.push(side.dart).unwrap();
    }
    Ok(())
}
