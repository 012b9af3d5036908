//! Labellings of a polygon, and lists of moves that lead to walks without spurs and off the cotree.
use halfedge_map::Surface;
use move_checker::{Verdict, check_moves};
use move_lifting::{Lifted, MOST_LIFTED_SIDES, expand, reduce_free};
use polygon_cut::cut;
use quad_system::{FromPolygon, GoodLabelling};
use small_meshes::{DOUBLE_TORUS, TORUS, Triangle};
use small_surfaces::{surface_of, walk_on};
use std::alloc::Global;
use std::process::Abort;
use surf_model::{FaceName, MOST_PEAK, Walk};
use tree_cotree::split_edges;
use walk_translate::label_surface;

#[test]
fn labels_of_the_torus(rt: HostRuntime) {
    check_signs(&rt, rt.alloc(), 7, &TORUS);
}

/// The last face of the double torus is flipped.
#[test]
fn labels_of_the_double_torus(rt: HostRuntime) {
    check_signs(&rt, rt.alloc(), 11, &DOUBLE_TORUS);
}

/// A labelling of the surface of these triangles has the signs of the surface.
fn check_signs(rt: &impl Abort, alloc: Global, vertices: u32, triangles: &[Triangle]) {
    assert!(rt; vertices <= 100 && triangles.len() <= 100);
    let surface = surface_of(alloc, vertices, triangles).expect(rt, "a surface");
    let found = label_surface(alloc, &surface).expect(rt, "memory");
    let good = found.expect(rt, "a labelling");
    let (labelling, signs) = (good.labelling(), surface.signs());
    assert_eq!(rt; labelling.faces(), signs.len());
    for face in 0..signs.len() {
        let face = FaceName(face);
        assert_eq!(rt; labelling.flipped(face), signs.flipped(face));
    }
}

#[test]
fn labels_of_a_polygon(rt: HostRuntime) {
    let surface = surface_of(rt.alloc(), 7, &TORUS).expect(&rt, "a surface");
    let split = split_edges(rt.alloc(), &surface).expect(&rt, "memory");
    let polygon = cut(rt.alloc(), &surface, &split).expect(&rt, "memory");
    assert_eq!(rt; polygon.degree(), 4);
    assert!(rt; GoodLabelling::from_polygon(rt.alloc(), &surface, &polygon).is_ok());
}

#[test]
fn a_walk_round_the_torus(rt: HostRuntime) {
    let surface = surface_of(rt.alloc(), 7, &TORUS).expect(&rt, "a surface");
    let split = split_edges(rt.alloc(), &surface).expect(&rt, "memory");
    let walk = walk_on(rt.alloc(), &surface, &[0, 1, 2, 3, 4, 5, 4, 5, 6, 0])
        .expect(&rt, "memory")
        .expect(&rt, "a walk");
    assert!(rt; surface.darts() <= MOST_LIFTED_SIDES && walk.darts() <= 100);
    let free = reduce_free(rt.alloc(), &walk).expect(&rt, "memory");
    assert_eq!(rt; free.walk.darts(), 7);
    judge(&rt, rt.alloc(), &surface, &walk, &free);
    let expanded = expand(rt.alloc(), &surface, &split, &walk).expect(&rt, "memory");
    judge(&rt, rt.alloc(), &surface, &walk, &expanded);
}

/// Asks the judge of moves, who has to accept the list.
fn judge(rt: &impl Abort, alloc: Global, surface: &Surface, first: &Walk, lifted: &Lifted) {
    let list = &lifted.moves;
    assert!(rt; list.peak() <= MOST_PEAK);
    let (faces, sides) = (surface.faces(), surface.sides());
    let verdict = check_moves(alloc, faces, sides, first, &lifted.walk, list);
    assert_eq!(rt; verdict.expect(rt, "memory"), Verdict::Accepted);
}
