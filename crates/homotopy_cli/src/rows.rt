//! The worked rows of the commands on closed walks, on surfaces with boundary, and on homology. The wanted texts are what docs/FORMATS.md
//! says of them.
use crate::files::{Case, check, check_printed, shelf_of_files};
use program::Status;
use std::alloc::{AllocError, Global};
use surf_io::MemoryShelf;

/// The files that the words name, beside those of the other tests.
const FILES: [(&str, &str); 19] = [
    // Three triangles round vertex 0.
    (
        "disc",
        "OFF\n4 3 0\n0 0 0\n0 0 0\n0 0 0\n0 0 0\n3 0 1 2\n3 0 3 1\n3 0 2 3\n",
    ),
    // Four squares round a hole.
    (
        "ring",
        "OFF\n8 4 0\n0 0 0\n0 0 0\n0 0 0\n0 0 0\n0 0 0\n0 0 0\n0 0 0\n0 0 0\n\
4 0 1 5 4\n4 1 2 6 5\n4 2 3 7 6\n4 3 0 4 7\n",
    ),
    // The torus without its first face.
    (
        "holed",
        "OFF\n7 13 0\n0 0 0\n0 0 0\n0 0 0\n0 0 0\n0 0 0\n0 0 0\n0 0 0\n\
3 1 2 4\n3 2 3 5\n3 3 4 6\n3 4 5 0\n3 5 6 1\n3 6 0 2\n\
3 0 3 2\n3 1 4 3\n3 2 5 4\n3 3 6 5\n3 4 0 6\n3 5 1 0\n3 6 2 1\n",
    ),
    ("rim", "1 2 3 1\n1\n"),
    ("hole", "0 1 2 3 0\n0\n"),
    ("rims", "0 1 2 3 0\n0 4 5 6 7 4 0\n"),
    // Between the handles of the double torus.
    ("waist", "0 1 3 0\n0\n"),
    ("later", "0 1 3 0\n1 3 0 1\n"),
    ("reversed", "0 1 3 0\n0 3 1 0\n"),
    ("ways", "0 1 2 0\n0 2 4 0\n"),
    ("way", "0 1 2 0\n0\n"),
    ("points", "0\n1\n"),
    ("open", "0 1\n0 1 0\n"),
    (
        "handle",
        "CHAIN 13\n0 -1\n1 -1\n2 -1\n3 -1\n4 -1\n5 -1\n6 -1\n7 -1\n8 -1\n9 -1\n10 -1\n11 -1\n12 -1\n",
    ),
    (
        "turned",
        "CHAIN 13\n0 1\n1 1\n2 1\n3 1\n4 1\n5 1\n6 1\n7 1\n8 1\n9 1\n10 1\n11 1\n12 1\n",
    ),
    ("nothing", "CHAIN 0\n"),
    ("zero", "COCYCLE 0\n"),
    ("fifth", "CHAIN 1\n4 1\n"),
    ("ended", "CHAIN 2\n0 1\n"),
];

const LOOPS: [Case; 7] = [
    ("loops double round", "freely homotopic\n", Status::Yes),
    ("loops double later", "freely homotopic\n", Status::Yes),
    (
        "loops double reversed",
        "not freely homotopic\n",
        Status::No,
    ),
    ("loops double waist", "not freely homotopic\n", Status::No),
    ("loops torus ways", "not freely homotopic\n", Status::No),
    (
        "loops tetrahedron points",
        "freely homotopic\n",
        Status::Yes,
    ),
    (
        "loops tetrahedron open",
        "refused: walk 1 open\n",
        Status::Refused,
    ),
];

const OPEN: [Case; 5] = [
    ("decide-open disc rim", "homotopic\n", Status::Yes),
    ("decide-open ring hole", "different\n", Status::No),
    ("decide-open ring rims", "homotopic\n", Status::Yes),
    ("decide-open holed round", "different\n", Status::No),
    (
        "decide-open tetrahedron sides",
        "refused: no boundary\n",
        Status::Refused,
    ),
];

const OPEN_LISTS: [Case; 2] = [
    (
        "certify-open disc rim",
        "verify disc rim printed",
        Status::Yes,
    ),
    (
        "certify-open ring rims",
        "verify ring rims printed",
        Status::Yes,
    ),
];

const HOMOLOGY: [Case; 2] = [
    (
        "homology double waist",
        "verify-homology double waist printed",
        Status::Yes,
    ),
    (
        "homology torus way",
        "verify-homology torus way printed",
        Status::No,
    ),
];

const VERDICTS: [Case; 6] = [
    (
        "verify-homology double waist handle",
        "accepted\n",
        Status::Yes,
    ),
    (
        "verify-homology double waist turned",
        "rejected: edge 0 1\n",
        Status::No,
    ),
    (
        "verify-homology double round nothing",
        "accepted\n",
        Status::Yes,
    ),
    (
        "verify-homology torus way zero",
        "rejected: zero\n",
        Status::No,
    ),
    (
        "verify-homology tetrahedron sides fifth",
        "rejected: face 4\n",
        Status::No,
    ),
    (
        "verify-homology tetrahedron sides ended",
        "refused: certificate line 3 ended\n",
        Status::Refused,
    ),
];

#[test]
fn closed_walks_are_decided(rt: HostRuntime) -> Result<(), AllocError> {
    let mut shelf = shelf_of_rows(rt.alloc())?;
    for case in &LOOPS {
        check(&rt, rt.alloc(), &mut shelf, *case)?;
    }
    Ok(())
}

#[test]
fn walks_on_open_surfaces_are_decided(rt: HostRuntime) -> Result<(), AllocError> {
    let mut shelf = shelf_of_rows(rt.alloc())?;
    for case in &OPEN {
        check(&rt, rt.alloc(), &mut shelf, *case)?;
    }
    Ok(())
}

#[test]
fn lists_on_open_surfaces_are_accepted(rt: HostRuntime) -> Result<(), AllocError> {
    let mut shelf = shelf_of_rows(rt.alloc())?;
    for case in &OPEN_LISTS {
        check_printed(&rt, rt.alloc(), &mut shelf, *case)?;
    }
    let none = ("certify-open ring hole", "different\n", Status::No);
    check(&rt, rt.alloc(), &mut shelf, none)
}

#[test]
fn homology_is_shown(rt: HostRuntime) -> Result<(), AllocError> {
    let mut shelf = shelf_of_rows(rt.alloc())?;
    for case in &HOMOLOGY {
        check_printed(&rt, rt.alloc(), &mut shelf, *case)?;
    }
    Ok(())
}

#[test]
fn certificates_of_homology_are_judged(rt: HostRuntime) -> Result<(), AllocError> {
    let mut shelf = shelf_of_rows(rt.alloc())?;
    for case in &VERDICTS {
        check(&rt, rt.alloc(), &mut shelf, *case)?;
    }
    Ok(())
}

/// A shelf with all files.
fn shelf_of_rows(alloc: Global) -> Result<MemoryShelf, AllocError> {
    let mut shelf = shelf_of_files(alloc)?;
    for (name, text) in &FILES {
        shelf.put(*name, text.as_bytes())?;
    }
    Ok(shelf)
}
