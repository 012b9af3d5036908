//! A search over the vertices or the faces of a surface.
ghost use Rattle.std.specs.Prelude.{◌≡◌, ◌<◌, true, length, OnOk, IfOk};
ghost use Rattle.halfedge_map.specs.OrientedMeshes.{IsOrientedSurface};
ghost use Rattle.halfedge_map.specs.DartMaps.{darts_of};
ghost use Rattle.tree_cotree.specs.Graphs.{maps_of, node_in, turn_in, crosses};
ghost use Rattle.tree_cotree.specs.Underway.{found_by, HasFound, IsOrdered, SearchGoesOn};
ghost use Rattle.tree_cotree.specs.Searches.{same_kind, AreBelow, IsNodeCrossed, IsSearched};

use crate::maybe_number::MaybeNumber;
use crate::split::Kind;
use crate::waiting::{Order, Waiting};
use halfedge_map::Surface;
use std::alloc::{AllocError, Global};
use surf_model::DartName;

/// What a search goes over.
#[derive(Clone, Copy, Debug, PartialEq, Eq)]
pub enum Nodes {
    Vertices,
    Faces,
}

/// The edges that a search may cross.
#[derive(Clone, Copy, Debug, PartialEq, Eq)]
pub enum Edges {
    Every,
    OfKind(Kind),
}

/// What a search goes over: the vertices or the faces of a surface, joined across some of its edges.
#[derive(Clone, Copy)]
pub(crate) struct Graph<'a> {
    pub(crate) surface: &'a Surface,
    pub(crate) nodes: Nodes,
    /// The kind of each edge.
    pub(crate) kinds: &'a [Kind],
    pub(crate) edges: Edges,
}

impl Graph<'_> {
    /// The number of the node that a dart belongs to: the vertex where it starts, or its face.
    fn node(&self, dart: DartName) -> u32
        requires { dart.0 < darts_of self.now.surface.now }
        ensures { result ≡ node_in self.now dart.0 }
    {
        match self.nodes {
            Nodes::Vertices => self.surface.origin(dart).0,
            Nodes::Faces => self.surface.face_of(dart).0,
        }
    }

    /// The number of the node that lies across the edge of a dart. The vertex at its other end is where the next dart of its
    /// face starts, which lies closer in memory than its twin.
    fn node_across(&self, dart: DartName) -> u32
        requires valid { IsOrientedSurface self.now.surface.now }
        requires dart { dart.0 < darts_of self.now.surface.now }
        ensures { result ≡ node_in self.now ((maps_of self.now).twin dart.0) }
    {
        let surface = self.surface;
        match self.nodes {
            Nodes::Vertices => surface.origin(surface.next(dart)).0,
            Nodes::Faces => surface.face_of(surface.twin(dart)).0,
        }
    }

    /// The dart that follows round the node of a dart.
    fn turn(&self, dart: DartName) -> DartName
        requires { dart.0 < darts_of self.now.surface.now }
        ensures turn { result.0 ≡ turn_in self.now dart.0 }
        ensures within { result.0 < darts_of self.now.surface.now }
    {
        match self.nodes {
            Nodes::Vertices => self.surface.next(self.surface.twin(dart)),
            Nodes::Faces => self.surface.next(dart),
        }
    }

    /// Whether a search may cross the edge of a dart.
    fn may_cross(&self, dart: DartName) -> bool
        requires kinds { length self.now.kinds.now ≡ length self.now.surface.now.table }
        requires dart { dart.0 < darts_of self.now.surface.now }
        ensures { result ≡ crosses self.now ((maps_of self.now).edge dart.0) }
    {
        match self.edges {
            Edges::Every => true,
            Edges::OfKind(kind) => {
                is_same(self.kinds[self.surface.edge_of(dart).0 as usize], kind)
            }
        }
    }
}

/// Whether two kinds are one.
pub(crate) fn is_same(kind: Kind, other: Kind) -> bool
    ensures { result ≡ same_kind kind other }
{
    match (kind, other) {
        (Kind::Tree, Kind::Tree) => true,
        (Kind::Cotree, Kind::Cotree) => true,
        (Kind::Left, Kind::Left) => true,
        _ => false,
    }
}

/// The darts of a search in the order in which their nodes were found, those of them that wait for what lies round their
/// nodes, and the dart of each node but the first.
#[derive(Drop)]
struct Search {
    order: Vec<DartName>,
    waiting: Waiting,
    from: Vec<MaybeNumber>,
}

/// Goes across the edge of a dart, if it may be crossed, and keeps the node beyond it, if it is new.
fn cross(
    search: &mut Search,
    graph: &Graph<'_>,
    root: u32,
    dart: DartName,
) -> Result<(), AllocError>
    requires valid { IsOrientedSurface graph.now.surface.now }
    requires kinds { length graph.now.kinds.now ≡ length graph.now.surface.now.table }
    requires below { AreBelow (maps_of graph.now) (node_in graph.now) (length search.old.from.items) }
    requires dart { dart.0 < darts_of graph.now.surface.now }
    requires found { HasFound graph.now search.old (node_in graph.now dart.0) }
    requires order { IsOrdered graph.now (length search.old.from.items) root search.old }
    ensures order { OnOk result (IsOrdered graph.now (length search.old.from.items) root search.new) }
    ensures added { OnOk result (SearchGoesOn search.old search.new) }
    ensures crossed { OnOk result (crosses graph.now ((maps_of graph.now).edge dart.0) ≡ true
        → HasFound graph.now search.new (node_in graph.now ((maps_of graph.now).twin dart.0))) }
{
    if !graph.may_cross(dart) {
        return Ok(());
    }
    let across = graph.node_across(dart);
    if across == root || search.from[across as usize].is_some() {
        return Ok(());
    }
    let back = graph.surface.twin(dart);
    search.order.push(back)?;
    search.waiting.push(back)?;
    search.from[across as usize] = MaybeNumber::some(back.0);
    Ok(())
}

/// Goes round the node of a dart and across all its edges that may be crossed.
fn visit(
    search: &mut Search,
    graph: &Graph<'_>,
    root: u32,
    first: DartName,
) -> Result<(), AllocError>
    requires kinds { length graph.now.kinds.now ≡ length graph.now.surface.now.table }
    requires below { AreBelow (maps_of graph.now) (node_in graph.now) (length search.old.from.items) }
    requires dart { first.0 < darts_of graph.now.surface.now }
    requires found { HasFound graph.now search.old (node_in graph.now first.0) }
    requires order { IsOrdered graph.now (length search.old.from.items) root search.old }
    ensures order { OnOk result (IsOrdered graph.now (length search.old.from.items) root search.new) }
    ensures added { OnOk result (SearchGoesOn search.old search.new) }
    ensures crossed { OnOk result (IsNodeCrossed (maps_of graph.now) (node_in graph.now)
        (crosses graph.now) (found_by search.new) (node_in graph.now first.0)) }
{
    let mut dart = first;
    for _turn in 0..graph.surface.darts() {
        cross(search, graph, root, dart)?;
        dart = graph.turn(dart);
        if dart == first {
            return Ok(());
        }
    }
    Ok(())
}

/// Searches from the node of a dart across all edges that may be crossed. It gives for each node but the root a dart that
/// leads back.
pub(crate) fn search_over(
    alloc: Global,
    graph: &Graph<'_>,
    order: Order,
    bound: u32,
    start: DartName,
) -> Result<Vec<MaybeNumber>, AllocError>
    requires kinds { length graph.now.kinds.now ≡ length graph.now.surface.now.table }
    requires below { AreBelow (maps_of graph.now) (node_in graph.now) bound }
    requires dart { start.0 < darts_of graph.now.surface.now }
    ensures { IfOk result (λ from. IsSearched (maps_of graph.now) (node_in graph.now)
        (crosses graph.now) bound (node_in graph.now start.0) from.items) }
{
    let mut search = Search {
        order: Vec::with_capacity(alloc, bound as usize)?,
        waiting: Waiting::new(alloc),
        from: vec![in alloc; MaybeNumber::none(); bound as usize]?,
    };
    search.order.push(start)?;
    search.waiting.push(start)?;
    let root = graph.node(start);
    while let Some(first) = search.waiting.take(order)? {
        visit(&mut search, graph, root, first)?;
    }
    Ok(search.from)
}
