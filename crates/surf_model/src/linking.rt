//! From each side to its edge, and to the next side of that edge; and which vertices edges have.
ghost use Rattle.std.specs.Prelude.{◌≡◌, ◌<◌, ℕ, All, false, length, slice_index, slice_index_or, IfOk};
ghost use Rattle.std.specs.List.{list_any};
ghost use Rattle.surf_model.specs.EdgeLists.{DartEdge, dart_edge_in};
ghost use Rattle.surf_model.specs.Links.{IsLinked, is_end};

use crate::edge_list::{EdgeList, SideEntry};
use crate::faces::corner_after;
use std::alloc::{AllocError, Global};

/// Links the sides of all edges: at the number of each side come its edge and the next side of that edge, where the first
/// one follows the last. What stands in `links` before is not read.
pub(crate) fn link_sides(links: &mut Vec<SideEntry>, edges: &EdgeList)
    requires { All (λ (edge : DartEdge). All (λ n. n < length links.old.items) edge.darts) edges.now }
    ensures each { length links.new.items ≡ length links.old.items }
    ensures linked { (k t : ℕ) → k < length edges.now → t < length (dart_edge_in edges.now k).darts
        → IsLinked edges.now links.new.items (slice_index (dart_edge_in edges.now k).darts t) }
{
    for edge in 0..edges.len() {
        link_edge(links, edges, edge);
    }
}

/// Links the sides of an edge.
fn link_edge(links: &mut Vec<SideEntry>, edges: &EdgeList, edge: u32)
    requires edge { edge < length edges.now }
    requires sides { All (λ n. n < length links.old.items) (dart_edge_in edges.now edge).darts }
    ensures each { length links.new.items ≡ length links.old.items }
    ensures kept { (n : ℕ) → IsLinked edges.now links.old.items n → IsLinked edges.now links.new.items n }
    ensures linked { (t : ℕ) → t < length (dart_edge_in edges.now edge).darts
        → IsLinked edges.now links.new.items (slice_index (dart_edge_in edges.now edge).darts t) }
{
    let sides = edges.sides(edge);
    for k in 0..sides {
        let dart = edges.dart(edge, k);
        let next = edges.dart(edge, corner_after(true, sides, k));
        links[dart.0 as usize] = SideEntry {
            key: edge,
            dart: next,
        };
    }
}

/// For each of `count` vertices whether it is an end of an edge.
pub(crate) fn marks(alloc: Global, count: u32, edges: &EdgeList) -> Result<Vec<bool>, AllocError>
    requires { All (λ (edge : DartEdge). (edge.low < count) × (edge.high < count)) edges.now }
    ensures { IfOk result (λ marks. (v : ℕ) → slice_index_or marks.items v false ≡ list_any (is_end v) edges.now) }
{
    let mut marks = vec![in alloc; false; count as usize]?;
    for edge in 0..edges.len() {
        let ends = edges.ends(edge);
        marks[ends.low.0 as usize] = true;
        marks[ends.high.0 as usize] = true;
    }
    Ok(marks)
}
