//! What the tests of the program share: files in memory, and a run of words over them.
use program::{Status, run};
use std::alloc::{AllocError, Global};
use std::process::Abort;
use surf_io::{MemoryShelf, MemorySink};

/// A tetrahedron, in 66 bytes.
pub const TETRAHEDRON: &str =
    "OFF\n4 4 6\n0 0 0\n1 0 0\n0 1 0\n0 0 1\n3 0 1 2\n3 0 3 1\n3 0 2 3\n3 1 3 2\n";

/// The files that the words of the tests name.
const FILES: [(&str, &str); 17] = [
    ("tetrahedron", TETRAHEDRON),
    (
        "torus",
        "OFF\n7 14 0\n0 0 0\n0 0 0\n0 0 0\n0 0 0\n0 0 0\n0 0 0\n0 0 0\n\
3 0 1 3\n3 1 2 4\n3 2 3 5\n3 3 4 6\n3 4 5 0\n3 5 6 1\n3 6 0 2\n\
3 0 3 2\n3 1 4 3\n3 2 5 4\n3 3 6 5\n3 4 0 6\n3 5 1 0\n3 6 2 1\n",
    ),
    (
        "double",
        "OFF\n11 26 0\n0 0 0\n0 0 0\n0 0 0\n0 0 0\n0 0 0\n0 0 0\n0 0 0\n0 0 0\n0 0 0\n0 0 0\n0 0 0\n\
3 1 2 4\n3 2 3 5\n3 3 4 6\n3 4 5 0\n3 5 6 1\n3 6 0 2\n3 0 3 2\n3 1 4 3\n3 2 5 4\n3 3 6 5\n3 4 0 6\n\
3 5 1 0\n3 6 2 1\n3 1 8 7\n3 7 9 3\n3 3 10 8\n3 8 0 9\n3 9 1 10\n3 10 7 0\n3 0 7 3\n3 1 3 8\n3 7 8 9\n\
3 3 9 10\n3 8 10 0\n3 9 0 1\n3 10 1 7\n",
    ),
    // Two tetrahedra that share vertex 0.
    (
        "pinched",
        "OFF\n7 8 0\n0 0 0\n0 0 0\n0 0 0\n0 0 0\n0 0 0\n0 0 0\n0 0 0\n\
3 0 1 2\n3 0 3 1\n3 0 2 3\n3 1 3 2\n3 0 4 5\n3 0 6 4\n3 0 5 6\n3 4 6 5\n",
    ),
    // Two tetrahedra apart.
    (
        "apart",
        "OFF\n8 8 0\n0 0 0\n0 0 0\n0 0 0\n0 0 0\n0 0 0\n0 0 0\n0 0 0\n0 0 0\n\
3 0 1 2\n3 0 3 1\n3 0 2 3\n3 1 3 2\n3 4 5 6\n3 4 7 5\n3 4 6 7\n3 5 7 6\n",
    ),
    ("sides", "0 1 2\n0 2\n"),
    ("round", "0 1 2 0 2 4 0\n0 2 4 0 1 2 0\n"),
    ("across", "0 1 2 3\n0 3\n"),
    ("thrice", "0 1 2 0 1 2 0 1 2 0 2 4 0\n0 1 2 3 4 5 6 0\n"),
    (
        "pairs",
        "WALKS 2\n0 ( 1 2 0 ) 3 2 4 0\n0 1 2 3 4 5 6 0\n0 1 2 3\n0 3\n",
    ),
    ("visits", "WALKS 2\n4 5 6\n4 6\n4\n4\n0 1\n0 2 1\n7\n7\n"),
    ("astray", "WALKS 2\n0 1\n0 1\n0 1\n0 2\n"),
    ("moves", "MOVES 1 2\nf 0 0 0 + 2\n"),
    ("backwards", "MOVES 1 2\nf 0 0 0 - 2\n"),
    (
        "denial",
        "LABELS 4\n+ 0 0 0\n+ 3 0 2\n+ 0 0 2\n+ 0 1 1\n+ 2 2 2\n+ 2 1 2\n+ 0 0 0\n\
+ 0 0 0\n+ 0 1 0\n+ 0 2 2\n+ 0 1 2\n+ 1 1 1\n+ 2 2 2\n+ 0 0 3\nplaces 0 1 2 3\n-1 -1\n0 0\n",
    ),
    ("point", "0\n0\n"),
    ("list", "0 7\n3 1 1\n5 0\nempty\n"),
];

/// Words, which stand in one text with blanks between them, and what comes of them.
pub type Case = (&'static str, &'static str, Status);

/// A shelf with all files.
pub fn shelf_of_files(alloc: Global) -> Result<MemoryShelf, AllocError> {
    let mut shelf = MemoryShelf::new(alloc);
    for (name, text) in &FILES {
        shelf.put(*name, text.as_bytes())?;
    }
    Ok(shelf)
}

/// Runs the words.
pub fn answer(
    alloc: Global,
    words: &str,
    shelf: &mut MemoryShelf,
    out: &mut MemorySink,
) -> Result<Status, AllocError> {
    let mut list = Vec::new(alloc);
    for word in words.split(' ') {
        list.push(String::from_str(alloc, word)?)?;
    }
    Ok(run(alloc, &list, shelf, out))
}

/// Runs the words, and looks at what comes of them.
pub fn check(
    rt: &impl Abort,
    alloc: Global,
    shelf: &mut MemoryShelf,
    (words, text, wanted): Case,
) -> Result<(), AllocError> {
    let mut out = MemorySink::new(alloc, 64);
    let status = answer(alloc, words, shelf, &mut out)?;
    assert!(rt; status == wanted, "{words:?}");
    assert!(rt; out.bytes() == text.as_bytes(), "{words:?}");
    Ok(())
}

/// Puts on the shelf what the words print, as a file `printed`, and looks at what the judge of it says.
pub fn check_printed(
    rt: &impl Abort,
    alloc: Global,
    shelf: &mut MemoryShelf,
    (words, judge, wanted): Case,
) -> Result<(), AllocError> {
    let mut printed = MemorySink::new(alloc, 64);
    let status = answer(alloc, words, shelf, &mut printed)?;
    assert!(rt; status == wanted, "{words:?}");
    shelf.put("printed", printed.bytes())?;
    check(rt, alloc, shelf, (judge, "accepted\n", Status::Yes))
}

/// The status with which a text is written that answers yes or refuses.
pub fn status_of(text: &str) -> Status {
    if text.starts_with("refused: ") {
        Status::Refused
    } else {
        Status::Yes
    }
}
