//! Lists of faces and walks.
use surf_model::{FaceName, Faces, VertexName, Walk};

#[test]
fn a_face_is_put_last(rt: HostRuntime) {
    let corners = [VertexName(0), VertexName(3), VertexName(1)];
    let face = Vec::from_slice(rt.alloc(), &corners).expect(&rt, "memory");
    let mut faces = Faces::new(rt.alloc(), 4);
    faces.push(face).expect(&rt, "memory");
    assert_eq!(rt; faces.corner(FaceName(0), 1), VertexName(3));
}

#[test]
fn a_walk_is_copied(rt: HostRuntime) {
    let walk = Walk::new(rt.alloc(), VertexName(2)).expect(&rt, "memory");
    let copy = walk.copy().expect(&rt, "memory");
    assert_eq!(rt; copy.at(0), VertexName(2));
}
