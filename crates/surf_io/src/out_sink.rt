//! Standard output as a sink.
ghost use Rattle.std.specs.Prelude.{◌≡◌, ◌<◌, ◌≤◌, ◌↔◌, None, true, IsTrue, IsErr, OnOk, OnErr};
ghost use Rattle.surf_io.specs.Faults.{Rose};
ghost use Rattle.surf_io.specs.declared.out_sink.TheConstants.{ROOM};

use crate::faults::Failed;
use crate::sink::Sink;

/// How many bytes are gathered before they are sent out together.
const ROOM: usize = 8_192;

/// Standard output. Bytes are gathered and sent out many at once, and by a flush: without one at
/// the end, the last of them are lost. Where sending fails, bytes that were taken are lost; each
/// write of a byte and each flush after it fails too, so that no flush settles what is not there.
#[derive(Drop)]
pub struct OutSink<'a, R: Print> {
    rt: &'a R,
    gathered: [u8; ROOM],
    count: usize,
    lost: bool,
    faults: u64,
    ghost within: { count ≤ ROOM },
}

impl<'a, R: Print> OutSink<'a, R> {
    /// A sink that has counted no fault.
    pub fn new(rt: &'a R) -> Self
        ensures { ⟦<OutSink<'a, R> as Sink>⟧.faults result ≡ 0 }
    {
        Self {
            rt,
            gathered: [0; ROOM],
            count: 0,
            lost: false,
            faults: 0,
        }
    }

    // Counts a fault, after which bytes are lost.
    fn fail(&mut self) -> Failed
        ensures lost { self.new.lost ≡ true }
        ensures count { self.new.count ≡ self.old.count }
        ensures counted { Rose self.old.faults self.new.faults }
        ensures never_falls { self.old.faults ≤ self.new.faults }
    {
        self.lost = true;
        self.faults = self.faults.saturating_add(1);
        Failed
    }

    // Sends out what was gathered, unless bytes were lost before.
    fn send(&mut self) -> Result<(), Failed>
        ensures emptied { self.new.count ≡ 0 }
        ensures lost { IsTrue self.new.lost ↔ IsErr result }
        ensures stays_lost { IsTrue self.old.lost → IsErr result }
        ensures failed_only_on_fault { OnErr result (Rose self.old.faults self.new.faults) }
        ensures never_falls { self.old.faults ≤ self.new.faults }
    {
        let count = self.count;
        self.count = 0;
        if self.lost || self.rt.write_all(&self.gathered[..count]).is_err() {
            return Err(self.fail());
        }
        Ok(())
    }

    // Sends out what was gathered where there is no room for more.
    fn make_room(&mut self) -> Result<(), Failed>
        ensures room { OnOk result (self.new.count < ROOM) }
        ensures failed_only_on_fault { OnErr result (Rose self.old.faults self.new.faults) }
        ensures never_falls { self.old.faults ≤ self.new.faults }
    {
        if self.count < ROOM {
            return Ok(());
        }
        self.send()
    }
}

impl<R: Print> Sink for OutSink<'_, R> {
    ghost written = { λ _. None };

    ghost settled = { λ _. 0 };

    ghost faults = { λ s. s.faults };

    fn write(&mut self, piece: &[u8]) -> Result<usize, Failed> {
        if piece.is_empty() {
            return Ok(0);
        }
        if self.lost {
            return Err(self.fail());
        }
        self.make_room()?;
        let taken = piece.len().min(ROOM - self.count);
        self.gathered[self.count..self.count + taken].copy_from_slice(&piece[..taken]);
        self.count += taken;
        Ok(taken)
    }

    fn flush(&mut self) -> Result<(), Failed> {
        self.send()
    }
}
