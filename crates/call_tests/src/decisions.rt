//! Decisions on many pairs of walks of one surface.
use small_meshes::TORUS;
use small_surfaces::{surface_of, walk_on};
use walk_translate::{Answer, Decider};

#[test]
fn two_pairs_of_the_torus(rt: HostRuntime) {
    let surface = surface_of(rt.alloc(), 7, &TORUS).expect(&rt, "a surface");
    let short = walk_on(rt.alloc(), &surface, &[0, 3])
        .expect(&rt, "memory")
        .expect(&rt, "a walk");
    let near = walk_on(rt.alloc(), &surface, &[0, 1, 3])
        .expect(&rt, "memory")
        .expect(&rt, "a walk");
    let far = walk_on(rt.alloc(), &surface, &[0, 1, 2, 3])
        .expect(&rt, "memory")
        .expect(&rt, "a walk");
    let decider = Decider::start(rt.alloc(), surface).expect(&rt, "memory");
    assert!(rt; short.at(0) == near.at(0) && short.at(short.darts()) == near.at(near.darts()));
    let answer = decider.answer(&short, &near).expect(&rt, "memory");
    assert_eq!(rt; answer, Answer::Homotopic);
    assert!(rt; short.at(0) == far.at(0) && short.at(short.darts()) == far.at(far.darts()));
    let answer = decider.answer(&short, &far).expect(&rt, "memory");
    assert_eq!(rt; answer, Answer::Different);
}
