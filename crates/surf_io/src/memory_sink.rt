//! A sink in memory, whose calls fail as it was planned.
ghost use Rattle.std.specs.Prelude.{◌≡◌, ◌↔◌, ℕ, ◌<◌, ◌≤◌, List, [], ◌∷◌, ◌++◌, length, min, take, Some, IfOk, OnOk, OnErr, IsErr, is_ok, if◌then◌else◌};
ghost use Rattle.std.specs.List.{Contains};
ghost use Rattle.surf_io.specs.Faults.{Rose};
ghost use Rattle.surf_io.specs.Bytes.{Appends};
ghost use Rattle.surf_io.specs.Memory.{count_up};

use crate::fault_plan::FaultPlan;
use crate::faults::Failed;
use crate::sink::Sink;
use std::alloc::{AllocError, Global};
use std::marker::Model;

/// Bytes in memory, the numbers of the calls that fail, and the greatest number of bytes that a
/// call takes. A call also fails where there is no memory for its bytes.
#[derive(Drop)]
pub struct MemorySink {
    written: Vec<u8>,
    settled: usize,
    plan: FaultPlan,
    at_most: usize,
}

impl Model for MemorySink {
    ghost use Rattle.std.specs.Prelude.{◌<◌};
    ghost use Rattle.surf_io.specs.Memory.{SinkInMemory, sink_code};

    ghost Value = { SinkInMemory };

    ghost coded = { sink_code };

    ghost view = { λ s. record {
      written = s.written.items;
      settled = s.settled;
      failing = s.plan.failing.items;
      calls = s.plan.calls;
      faults = s.plan.faults;
      at_most = s.at_most;
    } };

    ghost invariant = { λ s. 0 < s.at_most };
}

impl MemorySink {
    /// A sink with no byte, and no call that fails. A write takes `at_most` bytes.
    pub fn new(alloc: Global, at_most: usize) -> Self
        requires { 0 < at_most }
        ensures { result ≡ record { written = []; settled = 0; failing = []; calls = 0; faults = 0; at_most = at_most } }
    {
        Self {
            written: Vec::new(alloc),
            settled: 0,
            plan: FaultPlan::new(alloc),
            at_most,
        }
    }

    /// Has the call with that number fail. Calls of `write` with some bytes and of `flush` are
    /// counted together, and the first one is number 1.
    pub fn fail_at(&mut self, call: u64) -> Result<(), AllocError>
        ensures ok { OnOk result (self.new ≡ record self.old { failing = self.old.failing ++ call ∷ [] }) }
        ensures err { OnErr result (self.new ≡ self.old) }
    {
        self.plan.fail_at(call)
    }

    /// The bytes that were written.
    pub fn bytes(&self) -> &[u8]
        ensures { result.now ≡ self.now.written }
    {
        &self.written
    }
}

impl Sink for MemorySink {
    ghost written = { λ s. Some s.written };

    ghost settled = { λ s. s.settled };

    ghost faults = { λ s. s.faults };

    fn write(&mut self, piece: &[u8]) -> Result<usize, Failed>
        ensures fails_as_planned { 0 < length piece.now → Contains self.old.failing (count_up self.old.calls) → IsErr result }
        ensures calls { 0 < length piece.now → self.new.calls ≡ count_up self.old.calls }
        ensures takes { IfOk result (λ n. n ≡ min (length piece.now) self.old.at_most) }
        ensures faults { self.new.faults ≡ (if is_ok result then self.old.faults else count_up self.old.faults) }
        ensures same_plan { self.new.failing ≡ self.old.failing }
        ensures same_at_most { self.new.at_most ≡ self.old.at_most }

        ensures bound { IfOk result (λ n. n ≤ length piece.now) }
        ensures progress { IfOk result (λ n. 0 < length piece.now → 0 < n) }
        ensures appends { IfOk result (λ n. Appends (Some self.old.written) (Some self.new.written) (take n piece.now)) }
        ensures empty_piece { length piece.now ≡ 0 → (result ≡ Ok 0) × (self.new ≡ self.old) }
        ensures same_settled { self.new.settled ≡ self.old.settled }
        ensures failed_only_on_fault { OnErr result (Rose self.old.faults self.new.faults) }
        ensures failed_writes_nothing { OnErr result (self.new.written ≡ self.old.written) }
        ensures never_falls { self.old.faults ≤ self.new.faults }
    {
        if piece.is_empty() {
            return Ok(0);
        }
        self.plan.begin_call()?;
        let count = piece.len().min(self.at_most);
        match self.written.extend_from_slice(&piece[..count]) {
            Ok(()) => Ok(count),
            Err(_) => Err(self.plan.fault()),
        }
    }

    fn flush(&mut self) -> Result<(), Failed>
        ensures fails_as_planned { IsErr result ↔ Contains self.old.failing (count_up self.old.calls) }
        ensures calls { self.new.calls ≡ count_up self.old.calls }
        ensures faults { self.new.faults ≡ (if is_ok result then self.old.faults else count_up self.old.faults) }
        ensures same_plan { self.new.failing ≡ self.old.failing }
        ensures same_at_most { self.new.at_most ≡ self.old.at_most }

        ensures settles { OnOk result (self.new.settled ≡ length self.new.written) }
        ensures same_bytes { self.new.written ≡ self.old.written }
        ensures failed_only_on_fault { OnErr result (Rose self.old.faults self.new.faults) }
        ensures failed_settles_nothing { OnErr result (self.new.settled ≡ self.old.settled) }
        ensures never_falls { self.old.faults ≤ self.new.faults }
    {
        self.plan.begin_call()?;
        self.settled = self.written.len();
        Ok(())
    }
}
