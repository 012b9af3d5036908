//! Splits of a surface.
ghost use Rattle.std.specs.Prelude.{◌≡◌, ◌<◌, length, IfOk};
ghost use Rattle.std.specs.Option.{option_map};
ghost use Rattle.tree_cotree.specs.Splits.{IsSplit};

use crate::colouring::Colouring;
use crate::edge_faces::faces_below;
use crate::marking::{leftover_dart, leftover_edges, mark};
use crate::maybe_number::MaybeNumber;
use crate::search::{Edges, Graph, Nodes, search_over};
use crate::turning::turn_round;
use crate::waiting::Order;
use halfedge_map::Surface;
use std::alloc::{AllocError, Global};
use std::marker::Model;
use surf_model::{DartName, EdgeName, FaceName, VertexName};

/// What an edge is in a split.
#[derive(Clone, Copy, Debug, PartialEq, Eq)]
pub enum Kind {
    /// An edge of the tree over the vertices.
    Tree,
    /// An edge of the cotree over the faces.
    Cotree,
    /// A leftover edge, of neither.
    Left,
}

/// A split of a surface: a tree of edges that spans the used vertices, a cotree of edges across which the faces hang
/// together, and the leftover edges.
#[derive(Debug, Drop)]
pub struct Split {
    /// What it tells without its ways.
    colouring: Colouring,
    /// For each vertex the dart to its parent in the tree.
    parents: Vec<MaybeNumber>,
    /// For each edge the face below it in the cotree.
    children: Vec<MaybeNumber>,
}

impl Model for Split {
    ghost use Rattle.tree_cotree.specs.Splits.{SplitView};
    ghost use Rattle.tree_cotree.specs.StoredSplits.{made_split};

    ghost Value = { SplitView };

    ghost view = { λ a. made_split a.colouring.kinds a.parents.items a.children.items a.colouring.root_face a.colouring.genus };
}

impl Split {
    ghost use Rattle.tree_cotree.specs.Splits.{kind_of, parent_dart, below_edge};
    ghost use Rattle.tree_cotree.specs.Colourings.{colouring_of};

    /// What it tells without its ways.
    pub fn colouring(&self) -> &Colouring
        ensures { result.now ≡ colouring_of self.now }
    {
        &self.colouring
    }

    /// What an edge is.
    pub fn kind(&self, edge: EdgeName) -> Kind
        requires { edge.0 < length self.now.kinds }
        ensures { result ≡ kind_of self.now edge.0 }
    {
        self.colouring.kind(edge)
    }

    /// A tree dart from a vertex to its parent; none for the root and for unused vertices.
    pub fn parent(&self, vertex: VertexName) -> Option<DartName>
        requires { vertex.0 < length self.now.parents }
        ensures { option_map (λ dart. dart.0) result ≡ parent_dart self.now vertex.0 }
    {
        self.parents[vertex.0 as usize].dart()
    }

    /// The face below a cotree edge; none for other edges.
    pub fn child_face(&self, edge: EdgeName) -> Option<FaceName>
        requires { edge.0 < length self.now.children }
        ensures { option_map (λ face. face.0) result ≡ below_edge self.now edge.0 }
    {
        self.children[edge.0 as usize].face()
    }

    /// The root of the cotree. It has a leftover dart where there is one.
    pub fn root_face(&self) -> FaceName
        ensures { result.0 ≡ self.now.root_face }
    {
        self.colouring.root_face()
    }

    /// The genus: half the number of leftover edges.
    pub fn genus(&self) -> u32
        ensures { result ≡ self.now.genus }
    {
        self.colouring.genus()
    }
}

/// Splits a surface. The tree is found patch by patch, so that walks to its root are short; the cotree with a stack, which is
/// quicker.
pub fn split_edges(alloc: Global, surface: &Surface) -> Result<Split, AllocError>
    ensures { IfOk result (IsSplit surface.now) }
{
    let faces = surface.faces().len();
    let mut kinds = vec![in alloc; Kind::Left; surface.sides().len() as usize]?;
    let primal = Graph {
        surface,
        nodes: Nodes::Vertices,
        kinds: &kinds,
        edges: Edges::Every,
    };
    let vertices = surface.faces().count();
    let parents = search_over(alloc, &primal, Order::Patches, vertices, DartName(0))?;
    mark(&mut kinds, surface, &parents, Kind::Tree);
    let dual = Graph {
        surface,
        nodes: Nodes::Faces,
        kinds: &kinds,
        edges: Edges::OfKind(Kind::Left),
    };
    let mut face_parents = search_over(alloc, &dual, Order::LastFound, faces, DartName(0))?;
    mark(&mut kinds, surface, &face_parents, Kind::Cotree);
    let start = leftover_dart(surface, &kinds);
    turn_round(alloc, surface, &mut face_parents, start)?;
    let children = faces_below(alloc, surface, &face_parents)?;
    let genus = leftover_edges(&kinds) / 2;
    let colouring = Colouring {
        kinds,
        root_face: surface.face_of(start),
        genus,
    };
    Ok(Split {
        colouring,
        parents,
        children,
    })
}
