//! [`Calls`]: the calls of an object in memory.
ghost use Rattle.std.specs.Prelude.{◌≡◌, ◌≤◌, ◌↔◌, if◌then◌else◌, IsTrue};
ghost use Rattle.pod_base.specs.Counts.{CountIncreased};
ghost use Rattle.pod_io.specs.Counts.{next_count};
ghost use Rattle.pod_io.specs.Memory.{next_call, NextFails};

use std::marker::Model;

/// The calls of an object in memory, some of which are to fail.
#[derive(Debug, Drop)]
pub struct Calls {
    made: u64,
    failing: Vec<u64>,
    faults: u64,
}

impl Model for Calls {
    ghost use Rattle.pod_io.specs.Memory.{Script};

    ghost Value = { Script };

    ghost view = { λ c. record { made = c.made; failing = c.failing.items; faults = c.faults } };
}

impl Calls {
    /// The calls of an object in memory, none so far. The calls of these numbers, from 1, are to
    /// fail.
    pub fn new(failing: Vec<u64>) -> Calls
        ensures made { result.made ≡ 0 }
        ensures failing { result.failing ≡ failing.items }
        ensures faults { result.faults ≡ 0 }
    {
        Calls {
            made: 0,
            failing,
            faults: 0,
        }
    }

    /// Numbers a call, and returns whether it is to fail. A call that is, is counted.
    pub fn next_fails(&mut self) -> bool
        ensures fails { IsTrue result ↔ NextFails self.old }
        ensures made { self.new.made ≡ next_call self.old }
        ensures failing { self.new.failing ≡ self.old.failing }
        ensures faults { self.new.faults
            ≡ (if result then next_count self.old.faults else self.old.faults) }
        ensures no_fewer { self.old.faults ≤ self.new.faults }
        ensures increased { IsTrue result → CountIncreased self.old.faults self.new.faults }
    {
        self.made = self.made.saturating_add(1);
        let fails = self.failing.contains(&self.made);
        if fails {
            self.count();
        }
        fails
    }

    /// Counts a fault of the object in memory.
    pub fn count(&mut self)
        ensures made { self.new.made ≡ self.old.made }
        ensures failing { self.new.failing ≡ self.old.failing }
        ensures faults { self.new.faults ≡ next_count self.old.faults }
        ensures no_fewer { self.old.faults ≤ self.new.faults }
        ensures increased { CountIncreased self.old.faults self.new.faults }
    {
        self.faults = self.faults.saturating_add(1);
    }
}
