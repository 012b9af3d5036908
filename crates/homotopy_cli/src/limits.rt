//! Limits of files and of `certify`, met and passed. The long texts are made here, of pieces that stand many times. The wanted texts are
//! what docs/FORMATS.md says of them.
use crate::files::{Case, check, check_printed, shelf_of_files, status_of};
use program::Status;
use std::alloc::{AllocError, Global};
use surf_gen::chain_of_tori;
use surf_io::MemoryShelf;

/// Pieces of a text, and how many times each stands.
type Pieces = &'static [(&'static str, u32)];

/// Words that name a file `made`, what it is made of, and what is written.
const LIMITS: [(&str, Pieces, &str); 17] = [
    (
        "surface made",
        &[
            ("OFF\n1000000 1 0\n", 1),
            ("0 0 0\n", 1_000_000),
            ("3 0 1 2\n", 1),
        ],
        "refused: edge 0 1 sides 1\n",
    ),
    (
        "surface made",
        &[("OFF\n1000001 4 0\n", 1)],
        "refused: off line 2 many\n",
    ),
    (
        "surface made",
        &[(MOST_FACES, 1), ("3 0 1 2\n", 1_333_333)],
        "refused: edge 0 1 sides 1333333\n",
    ),
    (
        "surface made",
        &[("OFF\n3 1333334 0\n", 1)],
        "refused: off line 2 many\n",
    ),
    (
        "surface made",
        &[
            (MOST_FACES, 1),
            ("3 0 1 2\n", 1_333_332),
            ("4 0 1 0 1\n", 1),
        ],
        "refused: edge 0 1 sides 1333336\n",
    ),
    (
        "surface made",
        &[
            (MOST_FACES, 1),
            ("3 0 1 2\n", 1_333_331),
            ("4 0 1 0 1\n", 2),
        ],
        "refused: off line 1333338 many\n",
    ),
    (
        "decide tetrahedron made",
        &[("0", 1), (" 1 0", 500_000), ("\n0\n", 1)],
        "homotopic\n",
    ),
    (
        "decide tetrahedron made",
        &[("0", 1), (" 1 0", 500_000), (" 1\n0\n", 1)],
        "refused: walks line 1 long\n",
    ),
    (
        "decide tetrahedron made",
        &[("0\n", 1_000_001)],
        "refused: walks line 1000001 many\n",
    ),
    (
        "reduce 5 made",
        &[("0", 1), (" 0", 999_999), ("\n", 1)],
        "empty\n",
    ),
    (
        "reduce 5 made",
        &[("0", 1), (" 0", 1_000_000), ("\n", 1)],
        "refused: list line 1 long\n",
    ),
    (
        "reduce 5 made",
        &[("0\n", 1_000_001)],
        "refused: list line 1000001 many\n",
    ),
    ("reduce 4294967295 made", &[("0 4294967294\n", 1)], "1 1\n"),
    (
        "reduce 4294967296 made",
        &[("0 1\n", 1)],
        "refused: words\n",
    ),
    (
        "verify tetrahedron sides made",
        &[("MOVES 1 16000000\nf 0 0 0 + 2\n", 1)],
        "accepted\n",
    ),
    (
        "verify tetrahedron sides made",
        &[("MOVES 1 16000001\nf 0 0 0 + 2\n", 1)],
        "refused: certificate line 1 peak\n",
    ),
    (
        "certify tetrahedron made",
        &[("0", 1), (" 1 0", 256), ("\n0 1 0\n", 1)],
        "refused: certify darts 514\n",
    ),
];

/// Three vertices, and as many faces as there may be.
const MOST_FACES: &str = "OFF\n3 1333333 0\n0 0 0\n0 0 0\n0 0 0\n";

/// The greatest pairs that are certified: 16,384 sides, and 512 darts.
const CERTIFIED: [Case; 2] = [
    (
        "certify grid point",
        "verify grid point printed",
        Status::Yes,
    ),
    (
        "certify tetrahedron turns",
        "verify tetrahedron turns printed",
        Status::Yes,
    ),
];

#[test]
fn limits_are_met_and_passed(rt: HostRuntime) -> Result<(), AllocError> {
    for (words, pieces, text) in &LIMITS {
        let mut shelf = shelf_of_files(rt.alloc())?;
        shelf.put("made", &text_of(rt.alloc(), *pieces)?)?;
        check(
            &rt,
            rt.alloc(),
            &mut shelf,
            (*words, *text, status_of(*text)),
        )?;
    }
    let mut shelf = shelf_of_limits(rt.alloc())?;
    for case in &CERTIFIED {
        check_printed(&rt, rt.alloc(), &mut shelf, *case)?;
    }
    let large = (
        "certify larger point",
        "refused: certify sides 16900\n",
        Status::Refused,
    );
    check(&rt, rt.alloc(), &mut shelf, large)
}

/// A text of pieces.
fn text_of(alloc: Global, pieces: Pieces) -> Result<Vec<u8>, AllocError> {
    let mut text = Vec::new(alloc);
    for (piece, times) in pieces {
        for _ in 0..*times {
            text.extend_from_slice(piece.as_bytes())?;
        }
    }
    Ok(text)
}

/// The files, and what `certify` is asked at its limits.
fn shelf_of_limits(alloc: Global) -> Result<MemoryShelf, AllocError> {
    let mut shelf = shelf_of_files(alloc)?;
    shelf.put("grid", &chain_of_tori(alloc, 1, 64)?)?;
    shelf.put("larger", &chain_of_tori(alloc, 1, 65)?)?;
    let turns = text_of(alloc, &[("0", 1), (" 1 0", 255), ("\n0 1 0\n", 1)])?;
    shelf.put("turns", &turns)?;
    Ok(shelf)
}
