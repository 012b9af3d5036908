//! Pairs of walks on surfaces that are not closed, or not orientable.
use compact_surfaces::CompactSurface;
use small_meshes::{PROJECTIVE_PLANE, Triangle, mesh_of};
use std::alloc::Global;
use std::process::Abort;
use surf_model::{Answer, VertexName, Walk};

/// A band of five triangles, each with two edges inside and one on the rim.
const MOEBIUS_BAND: [Triangle; 5] = [[0, 1, 2], [1, 2, 3], [2, 3, 4], [3, 4, 0], [4, 0, 1]];

/// Once round a line of the plane leads to no point, and twice round it does.
#[test]
fn a_line_of_the_projective_plane(rt: HostRuntime) {
    let mut plane = compact(&rt, rt.alloc(), 6, &PROJECTIVE_PLANE);
    let (a, b, c) = (VertexName(0), VertexName(1), VertexName(3));
    let once = ask(&rt, rt.alloc(), &mut plane, &[a, b, c, a], &[a]);
    let twice = ask(&rt, rt.alloc(), &mut plane, &[a, b, c, a, b, c, a], &[a]);
    drop(plane);
    assert_eq!(rt; once, Some(Answer::Different));
    assert_eq!(rt; twice, Some(Answer::Homotopic));
}

/// The rim of the band goes twice round its core. A vertex of the mirror is none of the band.
#[test]
fn the_rim_of_a_moebius_band(rt: HostRuntime) {
    let mut band = compact(&rt, rt.alloc(), 5, &MOEBIUS_BAND);
    let (a, b, c, d, e) = (
        VertexName(0),
        VertexName(1),
        VertexName(2),
        VertexName(3),
        VertexName(4),
    );
    let rim = [a, c, e, b, d, a];
    let twice = ask(
        &rt,
        rt.alloc(),
        &mut band,
        &rim,
        &[a, b, c, d, e, a, b, c, d, e, a],
    );
    let once = ask(&rt, rt.alloc(), &mut band, &rim, &[a, b, c, d, e, a]);
    let mirror = ask(&rt, rt.alloc(), &mut band, &[a, VertexName(5), a], &[a]);
    drop(band);
    assert_eq!(rt; twice, Some(Answer::Homotopic));
    assert_eq!(rt; once, Some(Answer::Different));
    assert_eq!(rt; mirror, None);
}

/// The compact surface of these triangles.
fn compact(
    rt: &impl Abort,
    alloc: Global,
    vertices: u32,
    triangles: &[Triangle],
) -> CompactSurface {
    assert!(rt; vertices <= 100 && triangles.len() <= 100);
    let mesh = mesh_of(alloc, vertices, triangles).expect(rt, "a mesh");
    CompactSurface::of(alloc, mesh).expect(rt, "a surface")
}

/// What is found of the walks along these vertices.
fn ask(
    rt: &impl Abort,
    alloc: Global,
    surface: &mut CompactSurface,
    first: &[VertexName],
    second: &[VertexName],
) -> Option<Answer> {
    assert!(rt; first.len() > 0 && first.len() <= 100);
    assert!(rt; second.len() > 0 && second.len() <= 100);
    let one = Walk::of(alloc, first).expect(rt, "memory");
    let other = Walk::of(alloc, second).expect(rt, "memory");
    surface.answer_if_pair(&one, &other).expect(rt, "memory")
}
