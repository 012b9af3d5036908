//! The rings that a set of edges makes of the darts.
ghost use Rattle.tree_cotree.specs.RingViews.{AreRingsOf};

use halfedge_map::Surface;
use small_meshes::TETRAHEDRON;
use small_surfaces::surface_of;
use std::process::Abort;
use surf_model::DartName;
use tree_cotree::Rings;

/// The darts 0, 3 and 6 go round the vertex 0, and 1, 9 and 5 round the vertex 1. With the edge of the darts 0 and 5 in the set, one ring
/// goes round both.
#[test]
fn an_edge_goes_in_and_out(rt: HostRuntime) {
    let surface = surface_of(rt.alloc(), 4, &TETRAHEDRON).expect(&rt, "a surface");
    let mut rings = Rings::start(rt.alloc(), &surface).expect(&rt, "memory");
    assert_eq!(rt; surface.darts(), 12);
    let edge = surface.edge_of(DartName(0));
    check_ring(&rt, &surface, &rings, &[0, 3, 6]);
    check_ring(&rt, &surface, &rings, &[1, 9, 5]);
    rings.swap(&surface, edge);
    check_ring(&rt, &surface, &rings, &[0, 1, 9, 5, 3, 6]);
    rings.swap(&surface, edge);
    check_ring(&rt, &surface, &rings, &[0, 3, 6]);
    check_ring(&rt, &surface, &rings, &[1, 9, 5]);
}

/// These darts come one after another, and the first of them after the last.
fn check_ring(rt: &impl Abort, surface: &Surface, rings: &Rings, ring: &[u32])
    requires { AreRingsOf surface.now rings.now }
{
    assert!(rt; !ring.is_empty());
    let mut dart = DartName(ring[ring.len() - 1]);
    for number in ring {
        assert!(rt; dart.0 < surface.darts());
        dart = rings.after(dart);
        assert_eq!(rt; dart, DartName(*number));
    }
}
