//! Certificates that are read in pieces, with a read that fails.
use std::alloc::{AllocError, Global};
use std::test::Fail;
use surf_io::MemoryShelf;
use surf_model::{FaceName, Move};
use walk_files::{CertHead, CertStream, StreamEnd};

/// A list of one move, and a comment that fills the rest of 200,000 bytes.
fn commented_list(alloc: Global) -> Result<Vec<u8>, AllocError> {
    let mut bytes = Vec::new(alloc);
    bytes.extend_from_slice(b"MOVES 1 2\nf 0 0 0 + 2\n#")?;
    bytes.resize(200_000, b'x')?;
    Ok(bytes)
}

/// The first piece has the move, and none is read before it is asked for.
#[test]
fn the_second_read_fails_behind_the_move(rt: HostRuntime) -> Result<(), Fail> {
    let bytes = commented_list(rt.alloc())?;
    let mut shelf = MemoryShelf::new(rt.alloc());
    shelf.put("moves", &bytes)?;
    shelf.fail_at(2)?;
    let started = CertStream::start(rt.alloc(), &mut shelf, "moves", 200_000);
    let mut stream = started.expect(&rt, "a head in the first piece");
    let CertHead::Moves { count: 1, peak: 2 } = stream.head() else {
        panic!(rt; "the head of another list");
    };
    let across = Move::Across {
        at: 0,
        face: FaceName(0),
        corner: 0,
        forward: true,
        taken: 2,
    };
    assert!(rt; stream.next_move(&mut shelf, "moves") == Ok(Some(across)));
    assert!(rt; stream.next_move(&mut shelf, "moves") == Err(StreamEnd::Fault));
    // The refusal is kept.
    assert!(rt; stream.next_move(&mut shelf, "moves") == Err(StreamEnd::Fault));
    Ok(())
}

/// Four reads have the file, and the fifth its end.
#[test]
fn the_whole_list_is_read(rt: HostRuntime) -> Result<(), Fail> {
    let bytes = commented_list(rt.alloc())?;
    for (limit, end) in [(200_000, Ok(None)), (199_999, Err(StreamEnd::TooLarge))] {
        let mut shelf = MemoryShelf::new(rt.alloc());
        shelf.put("moves", &bytes)?;
        let started = CertStream::start(rt.alloc(), &mut shelf, "moves", limit);
        let mut stream = started.expect(&rt, "a head in the first piece");
        let CertHead::Moves { .. } = stream.head() else {
            panic!(rt; "the head of a denial");
        };
        assert!(rt; stream.next_move(&mut shelf, "moves").is_ok());
        assert!(rt; stream.next_move(&mut shelf, "moves") == end);
    }
    Ok(())
}
