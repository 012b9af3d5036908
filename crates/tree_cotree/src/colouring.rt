//! Colourings of a surface's edges: tree, cotree and leftover edges without the ways to a root.
ghost use Rattle.std.specs.Prelude.{◌≡◌, ◌<◌, ◌≤◌, ℕ, false, length, IfOk};
ghost use Rattle.std.specs.List.{range_with_len};
ghost use Rattle.halfedge_map.specs.OrientedMeshes.{IsOrientedSurface};
ghost use Rattle.halfedge_map.specs.RotationSystems.{rotations_of};
ghost use Rattle.tree_cotree.specs.Colourings.{IsColouring};
ghost use Rattle.tree_cotree.specs.Joinings.{bound_of, kind_over, AreEnds, AreSpanned, HangTogether, IsEdgeTried};
ghost use Rattle.tree_cotree.specs.Searches.{has_kind, node_of};
ghost use Rattle.tree_cotree.specs.declared.split.Kind.TheVariants.{Left};

use crate::marking::{leftover_dart, leftover_edges};
use crate::search::{Nodes, is_same};
use crate::split::Kind;
use connectivity::Classes;
use halfedge_map::Surface;
use std::alloc::{AllocError, Global};
use std::marker::Model;
use surf_model::{EdgeName, FaceName};

/// What a split tells without its ways: the kind of each edge, the root of the cotree, and the genus.
#[derive(Debug, Drop)]
pub struct Colouring {
    /// For each edge its kind.
    pub(crate) kinds: Vec<Kind>,
    pub(crate) root_face: FaceName,
    pub(crate) genus: u32,
}

impl Model for Colouring {
    ghost use Rattle.tree_cotree.specs.Colourings.{ColouringView};

    ghost Value = { ColouringView };

    ghost view = { λ a. record { kinds = a.kinds.items; root_face = a.root_face.0; genus = a.genus } };
}

impl Colouring {
    ghost use Rattle.tree_cotree.specs.Splits.{kind_of};
    ghost use Rattle.tree_cotree.specs.ColouredTrees.{without_ways};

    /// What an edge is.
    pub fn kind(&self, edge: EdgeName) -> Kind
        requires { edge.0 < length self.now.kinds }
        ensures { result ≡ kind_of (without_ways self.now) edge.0 }
    {
        self.kinds[edge.0 as usize]
    }

    /// The root of the cotree. It has a leftover dart where there is one.
    pub fn root_face(&self) -> FaceName
        ensures { result.0 ≡ self.now.root_face }
    {
        self.root_face
    }

    /// The genus: half the number of leftover edges.
    pub fn genus(&self) -> u32
        ensures { result ≡ self.now.genus }
    {
        self.genus
    }
}

/// Colours the edges of a surface. Edge by edge it is tried whether the two vertices hang together already, and then for the edges that
/// are left whether the two faces do: no ring is gone round, and no way to a root is found.
pub fn colour_edges(alloc: Global, surface: &Surface) -> Result<Colouring, AllocError>
    ensures { IfOk result (IsColouring surface.now) }
{
    let mut kinds = vec![in alloc; Kind::Left; surface.sides().len() as usize]?;
    let vertices = Classes::new(alloc, surface.faces().count())?;
    span(surface, Nodes::Vertices, vertices, &mut kinds);
    let faces = Classes::new(alloc, surface.faces().len())?;
    span(surface, Nodes::Faces, faces, &mut kinds);
    let start = leftover_dart(surface, &kinds);
    let genus = leftover_edges(&kinds) / 2;
    Ok(Colouring {
        kinds,
        root_face: surface.face_of(start),
        genus,
    })
}

/// Gives their kind to leftover edges that span the nodes: in turn to each whose two nodes those before it do not join.
///
/// Where the nodes are vertices, the first edge of each lower vertex is tried before all others. A tree that is made so leads
/// along the rows of a mesh that is numbered row by row, and who goes round it stays in one part of memory.
fn span(surface: &Surface, nodes: Nodes, mut classes: Classes, kinds: &mut Vec<Kind>)
    requires valid { IsOrientedSurface surface.now }
    requires alone { classes ≡ range_with_len 0 (bound_of nodes surface.now) }
    requires kinds { length kinds.old.items ≡ length surface.now.table }
    requires free { (edge : ℕ) → edge < length surface.now.table → has_kind kinds.old.items (kind_over nodes) edge ≡ false }
    requires together { HangTogether (rotations_of surface.now) (node_of nodes (rotations_of surface.now)) (has_kind kinds.old.items Left) }
    ensures { AreSpanned surface.now nodes (kind_over nodes) kinds.old.items kinds.new.items }
{
    let edges = surface.sides().len();
    for early in 0..first_round(nodes, edges) {
        if begins_vertex(surface, EdgeName(early)) {
            try_edge(surface, nodes, &mut classes, kinds, EdgeName(early));
        }
    }
    for edge in 0..edges {
        try_edge(surface, nodes, &mut classes, kinds, EdgeName(edge));
    }
}

/// The kind of the edges that span the nodes.
fn kind_over(nodes: Nodes) -> Kind
    ensures { result ≡ kind_over nodes }
{
    match nodes {
        Nodes::Vertices => Kind::Tree,
        Nodes::Faces => Kind::Cotree,
    }
}

/// How many edges are looked at in a first round, of so many.
fn first_round(nodes: Nodes, edges: u32) -> u32
    ensures { result ≤ edges }
{
    match nodes {
        Nodes::Vertices => edges,
        Nodes::Faces => 0,
    }
}

/// Whether an edge is the first one of its lower vertex. Only the order in which edges are tried rests on it.
fn begins_vertex(surface: &Surface, edge: EdgeName) -> bool
    requires { edge.0 < length surface.now.table }
{
    if edge.0 == 0 {
        return true;
    }
    let (before, _) = surface.sides().ends(EdgeName(edge.0 - 1));
    let (low, _) = surface.sides().ends(edge);
    low.0 != before.0
}

/// Tries an edge: if it is left over and its nodes are in two classes, these become one and the edge gets its kind.
fn try_edge(
    surface: &Surface,
    nodes: Nodes,
    classes: &mut Classes,
    kinds: &mut Vec<Kind>,
    edge: EdgeName,
)
    requires valid { IsOrientedSurface surface.now }
    requires edge { edge.0 < length surface.now.table }
    requires classes { length classes.old ≡ bound_of nodes surface.now }
    requires kinds { length kinds.old.items ≡ length surface.now.table }
    ensures { IsEdgeTried surface.now nodes (kind_over nodes) edge.0 classes.old classes.new kinds.old.items kinds.new.items }
{
    if is_same(kinds[edge.0 as usize], Kind::Left) {
        let (first, second) = ends(surface, nodes, edge);
        if classes.join_apart(first, second) {
            kinds[edge.0 as usize] = kind_over(nodes);
        }
    }
}

/// The two nodes at an edge: its vertices, or the faces of its sides.
fn ends(surface: &Surface, nodes: Nodes, edge: EdgeName) -> (u32, u32)
    requires valid { IsOrientedSurface surface.now }
    requires edge { edge.0 < length surface.now.table }
    ensures { AreEnds (rotations_of surface.now) (node_of nodes (rotations_of surface.now)) edge.0 result.0 result.1 }
{
    let sides = surface.sides();
    match nodes {
        Nodes::Vertices => {
            let (low, high) = sides.ends(edge);
            (low.0, high.0)
        }
        Nodes::Faces => (sides.side(edge, 0).face.0, sides.side(edge, 1).face.0),
    }
}
