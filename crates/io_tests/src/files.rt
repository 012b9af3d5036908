//! Files in memory and of the system, with each read that fails.
use crate::bytes::{byte_at, bytes_of};
use std::test::Fail;
use std::{env, fs, process};
use surf_io::{Failed, FileShelf, MemoryShelf, QuietShelf, ReadEnd, Shelf, read_whole};

/// Three pieces of 65,536 bytes, the 3,392 that are left, and the end are five reads.
#[test]
fn each_read_may_fail(rt: HostRuntime) -> Result<(), Fail> {
    let bytes = bytes_of(rt.alloc(), b'a', 200_000)?;
    for call in 1..=6 {
        let mut shelf = MemoryShelf::new(rt.alloc());
        shelf.put("walk", &bytes)?;
        shelf.fail_at(call)?;
        match read_whole(rt.alloc(), &mut shelf, "walk", 200_000) {
            Ok(read) => assert!(rt; call == 6 && read == bytes && read.capacity() <= 200_001),
            Err(end) => assert!(rt; call < 6 && end == ReadEnd::Fault),
        }
    }
    let mut quiet = QuietShelf::new(rt.alloc());
    quiet.put("walk", &bytes)?;
    assert!(rt; read_whole(rt.alloc(), &mut quiet, "walk", 200_000) == Ok(bytes));
    Ok(())
}

#[test]
fn a_file_of_the_limit_is_read(rt: HostRuntime) -> Result<(), Fail> {
    let mut shelf = MemoryShelf::new(rt.alloc());
    shelf.put("ten", b"0123456789")?;
    shelf.put("eleven", b"0123456789a")?;
    let read = read_whole(rt.alloc(), &mut shelf, "ten", 10)?;
    assert!(rt; read.as_slice() == b"0123456789".as_slice());
    let large = read_whole(rt.alloc(), &mut shelf, "eleven", 10);
    assert!(rt; large == Err(ReadEnd::TooLarge));
    Ok(())
}

/// Tells whether nine bytes that are read of a file are those from the place on.
fn reads_nine<S: Shelf>(shelf: &mut S, name: &str, letter: u8, place: u64) -> bool {
    let mut piece = [0; 9];
    if shelf.read(name, place, &mut piece) != Ok(9) {
        return false;
    }
    let mut at = place;
    for byte in piece {
        if byte != byte_at(letter, at) {
            return false;
        }
        at = at.saturating_add(1);
    }
    true
}

#[test]
fn files_of_the_system(rt: HostRuntime) -> Result<(), Fail> {
    let folder = env::temp_dir(&rt)?;
    let folder = folder.to_str().expect(&rt, "a path of text");
    let id = process::id(rt.process());
    let first = format!(in rt.alloc(); "{folder}/surf_io_{id}_first")?;
    let second = format!(in rt.alloc(); "{folder}/surf_io_{id}_second")?;
    let (first, second) = (first.as_str(), second.as_str());
    let bytes = bytes_of(rt.alloc(), b'a', 200_000)?;
    fs::write(&rt, first, bytes.as_slice())?;
    fs::write(&rt, second, bytes_of(rt.alloc(), b'b', 200_000)?.as_slice())?;

    let mut shelf = FileShelf::new(&rt, rt.alloc());
    let cut = read_whole(rt.alloc(), &mut shelf, first, 199_999);
    assert!(rt; cut == Err(ReadEnd::TooLarge));
    assert!(rt; read_whole(rt.alloc(), &mut shelf, first, 200_000) == Ok(bytes));
    // Each file keeps its own place; the fourth read is at the place of the third, and the last far back.
    for place in [0, 9, 18, 18, 100_000, 7] {
        assert!(rt; reads_nine(&mut shelf, first, b'a', place), "place {place}");
        assert!(rt;
            reads_nine(&mut shelf, second, b'b', place),
            "place {place}"
        );
    }
    assert!(rt; shelf.read(first, 300_000, &mut [0; 9]) == Ok(0));
    fs::remove_file(&rt, first)?;
    fs::remove_file(&rt, second)?;
    assert!(rt; shelf.read("/absent/file", 0, &mut [0; 9]) == Err(Failed));
    Ok(())
}
