//! A walk on a tape, and the chain that keeps it.
use move_checker::Tape;
use small_meshes::TORUS;
use small_surfaces::{surface_of, walk_on};
use surf_model::{Move, VertexName};

#[test]
fn the_chain_of_a_tape_has_the_vertices_of_its_walk(rt: HostRuntime) {
    let surface = surface_of(rt.alloc(), 7, &TORUS).expect(&rt, "a surface");
    let walk = walk_on(rt.alloc(), &surface, &[0, 3])
        .expect(&rt, "memory")
        .expect(&rt, "a walk");
    let mut tape = Tape::start(rt.alloc(), &walk, 3).expect(&rt, "memory");
    let spur = Move::Insert {
        at: 1,
        via: VertexName(1),
    };
    tape.step(surface.faces(), surface.sides(), spur)
        .expect(&rt, "a spur at the end");
    let chain = tape.chain();
    let pool = tape.pool();
    assert_eq!(rt; pool.len(chain), 4);
    assert_eq!(rt; pool.at(chain, 0), 0);
    assert_eq!(rt; pool.at(chain, 1), 3);
    assert_eq!(rt; pool.at(chain, 2), 1);
    assert_eq!(rt; pool.at(chain, 3), 3);
}
