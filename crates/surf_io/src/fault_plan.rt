//! Calls that are to fail, by their numbers.
ghost use Rattle.std.specs.Prelude.{◌≡◌, ◌↔◌, ◌≤◌, ℕ, List, [], ◌∷◌, ◌++◌, OnOk, OnErr, IsErr, is_ok, if◌then◌else◌, vec_items};
ghost use Rattle.std.specs.List.{Contains};
ghost use Rattle.surf_io.specs.Memory.{count_up};

use crate::faults::Failed;
use std::alloc::{AllocError, Global};

// Both counters stand still at their last value.
#[derive(Drop)]
pub struct FaultPlan {
    pub failing: Vec<u64>,
    pub calls: u64,
    pub faults: u64,
}

impl FaultPlan {
    pub fn new(alloc: Global) -> Self
        ensures failing { result.failing.items ≡ [] }
        ensures calls { result.calls ≡ 0 }
        ensures faults { result.faults ≡ 0 }
    {
        Self {
            failing: Vec::new(alloc),
            calls: 0,
            faults: 0,
        }
    }

    pub fn fail_at(&mut self, call: u64) -> Result<(), AllocError>
        ensures ok { OnOk result (self.new.failing.items ≡ self.old.failing.items ++ call ∷ []) }
        ensures err { OnErr result (self.new.failing.items ≡ self.old.failing.items) }
        ensures calls { self.new.calls ≡ self.old.calls }
        ensures faults { self.new.faults ≡ self.old.faults }
    {
        self.failing.push(call)?;
        Ok(())
    }

    // Counts a call, and fails where that is planned.
    pub fn begin_call(&mut self) -> Result<(), Failed>
        ensures fails { IsErr result ↔ Contains self.old.failing.items (count_up self.old.calls) }
        ensures calls { self.new.calls ≡ count_up self.old.calls }
        ensures faults { self.new.faults ≡ (if is_ok result then self.old.faults else count_up self.old.faults) }
        ensures same_plan { self.new.failing.items ≡ self.old.failing.items }
        ensures never_falls { self.old.faults ≤ self.new.faults }
    {
        self.calls = self.calls.saturating_add(1);
        if self.failing.contains(&self.calls) {
            return Err(self.fault());
        }
        Ok(())
    }

    // Counts a fault.
    pub fn fault(&mut self) -> Failed
        ensures faults { self.new.faults ≡ count_up self.old.faults }
        ensures calls { self.new.calls ≡ self.old.calls }
        ensures same_plan { self.new.failing.items ≡ self.old.failing.items }
        ensures never_falls { self.old.faults ≤ self.new.faults }
    {
        self.faults = self.faults.saturating_add(1);
        Failed
    }
}
