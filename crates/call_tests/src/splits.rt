//! How many edges of each kind a split of a small surface has, and how many sides its polygon.
use polygon_cut::cut;
use small_meshes::{DOUBLE_TORUS, TETRAHEDRON, TORUS, Triangle};
use small_surfaces::surface_of;
use std::alloc::Global;
use std::process::Abort;
use surf_model::EdgeName;
use tree_cotree::{Kind, split_edges};

/// One edge less in the tree than vertices, one less in the cotree than faces, and two left over for each handle.
#[test]
fn edges_of_each_kind(rt: HostRuntime) {
    count_kinds(&rt, rt.alloc(), 4, &TETRAHEDRON, [3, 3, 0]);
    count_kinds(&rt, rt.alloc(), 7, &TORUS, [6, 13, 2]);
    count_kinds(&rt, rt.alloc(), 11, &DOUBLE_TORUS, [10, 25, 4]);
}

/// Splits the surface of these triangles, and compares the numbers of tree, cotree and leftover edges. The polygon has two sides for each
/// leftover edge.
fn count_kinds(
    rt: &impl Abort,
    alloc: Global,
    vertices: u32,
    triangles: &[Triangle],
    wanted: [u32; 3],
) {
    assert!(rt; vertices <= 100 && triangles.len() <= 100);
    let surface = surface_of(alloc, vertices, triangles).expect(rt, "a surface");
    let split = split_edges(alloc, &surface).expect(rt, "memory");
    let (mut tree, mut cotree, mut left) = (0u32, 0u32, 0u32);
    for edge in 0..surface.sides().len() as u32 {
        match split.kind(EdgeName(edge)) {
            Kind::Tree => tree = tree.saturating_add(1),
            Kind::Cotree => cotree = cotree.saturating_add(1),
            Kind::Left => left = left.saturating_add(1),
        }
    }
    assert!(rt; [tree, cotree, left] == wanted);
    let polygon = cut(alloc, &surface, &split).expect(rt, "memory");
    assert_eq!(rt; polygon.degree(), left.saturating_mul(2));
}
