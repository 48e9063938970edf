//! Calls that are to fail.
ghost use Rattle.std.specs.Prelude.{◌≡◌, ◌+◌, ◌-◌, ◌^◌, ◌↔◌, ◌∷◌, ◌++◌, ◌≤◌, [], IsTrue, OnOk};
ghost use Rattle.std.specs.Prelude.{OnErr, min, vec_capacity, vec_len};
ghost use Rattle.shelf_io.specs.Plans.{IsToFail};

use admit_core::OutOfMemory;
use std::alloc::Global;

/// Which calls are to fail, counted from 1, and how many were made.
#[derive(Drop)]
pub(crate) struct Plan {
    failing: Vec<u64>,
    calls: u64,
}

impl Plan {
    pub(crate) fn new(alloc: Global) -> Plan
        ensures failing { result.failing.items ≡ [] }
        ensures calls { result.calls ≡ 0 }
    {
        Plan {
            failing: Vec::new(alloc),
            calls: 0,
        }
    }

    /// Adds a call to those that are to fail.
    pub(crate) fn fail_at(&mut self, call: u64) -> Result<(), OutOfMemory>
        ensures ok { OnOk result (self.new.failing.items ≡ self.old.failing.items ++ call ∷ []) }
        ensures err { OnErr result (self.new.failing.items ≡ self.old.failing.items) }
        ensures full { OnErr result (vec_capacity self.old.failing ≤ vec_len self.old.failing) }
        ensures calls { self.new.calls ≡ self.old.calls }
    {
        self.failing.push(call)?;
        Ok(())
    }

    /// Counts a call, and answers whether it is to fail.
    pub(crate) fn next_fails(&mut self) -> bool
        ensures fails { IsTrue result ↔ IsToFail self.old.failing.items self.old.calls }
        ensures failing { self.new.failing.items ≡ self.old.failing.items }
        ensures calls { self.new.calls ≡ min (self.old.calls + 1) (2 ^ 64 - 1) }
    {
        match self.calls.checked_add(1) {
            Some(call) => {
                self.calls = call;
                self.failing.contains(&call)
            }
            None => false,
        }
    }
}
