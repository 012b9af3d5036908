//! Reads and writes that fail, one after another, and a mesh that is cut off behind each of its bytes. The wanted texts are what
//! docs/FORMATS.md says of them.
use crate::files::{TETRAHEDRON, answer, check, shelf_of_files, status_of};
use program::Status;
use std::alloc::{AllocError, Global};
use std::process::Abort;
use surf_io::{MemoryShelf, MemorySink};

/// More calls than a run makes.
const MANY_CALLS: u64 = 1_000;

/// Words, with what line they are answered, and how many reads that takes: of each file one for its bytes, and one that finds its end.
const READS: [(&str, &str, u64); 3] = [
    ("verify tetrahedron sides moves", "accepted\n", 6),
    ("verify torus across denial", "accepted\n", 6),
    ("certify double round", "different\n", 4),
];

/// Up to how many bytes of the tetrahedron are left, and what is said of them; the row before ends below.
const CUTS: [(usize, &str); 21] = [
    (0, "refused: off no counts\n"),
    (2, "refused: off line 1 counts\n"),
    (4, "refused: off no counts\n"),
    (6, "refused: off line 2 counts\n"),
    (10, "refused: off line 3 ended\n"),
    (14, "refused: off line 3 vertex\n"),
    (16, "refused: off line 4 ended\n"),
    (20, "refused: off line 4 vertex\n"),
    (22, "refused: off line 5 ended\n"),
    (26, "refused: off line 5 vertex\n"),
    (28, "refused: off line 6 ended\n"),
    (32, "refused: off line 6 vertex\n"),
    (34, "refused: off line 7 ended\n"),
    (40, "refused: off line 7 face\n"),
    (42, "refused: off line 8 ended\n"),
    (48, "refused: off line 8 face\n"),
    (50, "refused: off line 9 ended\n"),
    (56, "refused: off line 9 face\n"),
    (58, "refused: off line 10 ended\n"),
    (64, "refused: off line 10 face\n"),
    (66, "V 4\nE 6\nF 4\nchi 2\ngenus 0\n"),
];

#[test]
fn reads_fail_one_after_another(rt: HostRuntime) -> Result<(), AllocError> {
    for (words, line, reads) in &READS {
        let failed = failing_reads(&rt, rt.alloc(), *words, *line)?;
        assert!(rt; failed == *reads, "{words:?}");
    }
    Ok(())
}

/// Has one read after another fail, until a run meets no failure: how many did.
fn failing_reads(
    rt: &impl Abort,
    alloc: Global,
    words: &str,
    line: &str,
) -> Result<u64, AllocError> {
    for call in 1..MANY_CALLS {
        let mut shelf = shelf_of_files(alloc)?;
        shelf.fail_at(call)?;
        let mut out = MemorySink::new(alloc, 64);
        let status = answer(alloc, words, &mut shelf, &mut out)?;
        if status != Status::ReadFault {
            assert!(rt; out.bytes().starts_with(line.as_bytes()), "{words:?}");
            return Ok(call - 1);
        }
        assert!(rt; out.bytes().is_empty(), "{words:?}, call {call}");
    }
    Ok(MANY_CALLS)
}

/// A write takes five bytes, and behind the last one is a flush.
#[test]
fn writes_fail_one_after_another(rt: HostRuntime) -> Result<(), AllocError> {
    let words = "certify double round";
    let mut whole = MemorySink::new(rt.alloc(), 64);
    let status = answer(
        rt.alloc(),
        words,
        &mut shelf_of_files(rt.alloc())?,
        &mut whole,
    )?;
    assert!(rt; status == Status::No);
    let failed = failing_writes(&rt, rt.alloc(), words, whole.bytes())?;
    assert!(rt; failed > whole.bytes().len() as u64 / 5 && failed < MANY_CALLS);
    Ok(())
}

/// Has one write after another fail, until a run meets no failure: how many did.
fn failing_writes(
    rt: &impl Abort,
    alloc: Global,
    words: &str,
    whole: &[u8],
) -> Result<u64, AllocError> {
    for call in 1..MANY_CALLS {
        let mut out = MemorySink::new(alloc, 5);
        out.fail_at(call)?;
        let status = answer(alloc, words, &mut shelf_of_files(alloc)?, &mut out)?;
        if status != Status::WriteFault {
            assert!(rt; out.bytes() == whole);
            return Ok(call - 1);
        }
        assert!(rt; whole.starts_with(out.bytes()), "call {call}");
    }
    Ok(MANY_CALLS)
}

#[test]
fn a_mesh_is_cut_off(rt: HostRuntime) -> Result<(), AllocError> {
    let mut shelf = shelf_of_files(rt.alloc())?;
    let mut cut = Vec::new(rt.alloc());
    check_cut(&rt, rt.alloc(), &mut shelf, &cut)?;
    for byte in TETRAHEDRON.as_bytes() {
        cut.push(*byte)?;
        check_cut(&rt, rt.alloc(), &mut shelf, &cut)?;
    }
    assert_eq!(rt; cut.len(), 66);
    Ok(())
}

/// Looks at what is said of the first bytes of the tetrahedron.
fn check_cut(
    rt: &impl Abort,
    alloc: Global,
    shelf: &mut MemoryShelf,
    cut: &[u8],
) -> Result<(), AllocError> {
    shelf.put("cut", cut)?;
    for (last, text) in &CUTS {
        if cut.len() <= *last {
            return check(rt, alloc, shelf, ("surface cut", *text, status_of(*text)));
        }
    }
    Ok(())
}
