//! Output in memory and of the system, with each write that fails.
use crate::bytes::bytes_of;
use std::cell::{Cell, RefCell};
use std::fmt::Display;
use std::io::{self, ErrorKind};
use std::test::Fail;
use surf_io::{Failed, MemorySink, OutSink, Piece, Sink, write_whole};

/// Three writes and a flush.
#[test]
fn each_write_may_fail(rt: HostRuntime) -> Result<(), Fail> {
    let text = b"0 17 4 2\n";
    for (call, written) in [(1, 0), (2, 3), (3, 6), (4, 9)] {
        let mut sink = MemorySink::new(rt.alloc(), 3);
        sink.fail_at(call)?;
        assert!(rt; write_whole(&mut sink, text).is_ok() == (call == 4));
        assert!(rt; sink.bytes() == &text[..written]);
        assert!(rt; sink.flush().is_ok() == (call != 4));
    }
    Ok(())
}

/// A line of 5,002 bytes takes two writes.
#[test]
fn a_piece_gathers_words(rt: HostRuntime) -> Result<(), Fail> {
    let mut sink = MemorySink::new(rt.alloc(), 10_000);
    sink.fail_at(3)?;
    let mut piece = Piece::new();
    piece.put_line(b"x", &[1_000; 1_000], &mut sink)?;
    piece.write_out(&mut sink)?;
    assert_eq!(rt; sink.bytes().len(), 5_002);
    Ok(())
}

/// Keeps what is printed, and counts the calls. It fails while it is said to.
#[derive(Drop)]
struct Recorder {
    printed: RefCell<Vec<u8>>,
    calls: Cell<u64>,
    fails: Cell<bool>,
}

impl Print for Recorder {
    fn print<D: Display + Drop>(&self, _value: D) -> io::Result<()> {
        Err(io::Error::from(ErrorKind::Unsupported))
    }

    fn println<D: Display + Drop>(&self, _value: D) -> io::Result<()> {
        Err(io::Error::from(ErrorKind::Unsupported))
    }

    fn write_all(&self, bytes: &[u8]) -> io::Result<()> {
        if self.fails.get() {
            return Err(io::Error::from(ErrorKind::BrokenPipe));
        }
        self.calls.set(self.calls.get().saturating_add(1));
        let Ok(mut printed) = self.printed.try_borrow_mut() else {
            return Err(io::Error::from(ErrorKind::Other));
        };
        printed.extend_from_slice(bytes)?;
        Ok(())
    }
}

#[test]
fn output_of_the_system(rt: HostRuntime) -> Result<(), Fail> {
    let recorder = Recorder {
        printed: RefCell::new(Vec::new(rt.alloc())),
        calls: Cell::new(0),
        fails: Cell::new(false),
    };
    let bytes = bytes_of(rt.alloc(), b'a', 100_000)?;
    let mut sink = OutSink::new(&recorder);
    // Three bytes at once, so that some of them come in the next buffer.
    for piece in bytes.chunks(3) {
        assert!(rt; write_whole(&mut sink, piece) == Ok(()));
    }
    assert!(rt; sink.flush() == Ok(()));
    assert!(rt; *recorder.printed.try_borrow().expect(&rt, "free") == bytes);
    // Twelve full buffers of 8,192 bytes, and the rest.
    assert_eq!(rt; recorder.calls.get(), 13);

    recorder.fails.set(true);
    assert!(rt; write_whole(&mut sink, b"lost") == Ok(()));
    assert!(rt; sink.flush() == Err(Failed));
    // Bytes are lost, so nothing is settled from then on.
    recorder.fails.set(false);
    assert!(rt; sink.write(b"later") == Err(Failed));
    assert!(rt; sink.write(b"") == Ok(0));
    assert!(rt; sink.flush() == Err(Failed));
    assert_eq!(rt; recorder.calls.get(), 13);
    Ok(())
}
