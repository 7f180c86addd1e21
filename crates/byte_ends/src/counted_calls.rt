// The calls of a source or a sink in memory: how many were made, and which fail.
ghost use Rattle.std.specs.Prelude.{◌≡◌, ◌↔◌, ◌≤◌, Contains, IsTrue};
ghost use Rattle.byte_ends.specs.Faults.{counted};

/// How many calls were made, which of them fail, by their numbers from 1, and how many have failed.
#[derive(Drop)]
pub struct CountedCalls {
    pub failing: Vec<u64>,
    pub made: u64,
    pub faults: u64,
}

impl CountedCalls {
    /// No call so far.
    pub fn new(failing: Vec<u64>) -> Self
        ensures { result ≡ record { failing = failing; made = 0; faults = 0 } }
    {
        CountedCalls {
            failing,
            made: 0,
            faults: 0,
        }
    }

    /// Counts a call, and answers whether its number stands among those that fail.
    pub fn begin(&mut self) -> bool
        ensures fails { IsTrue result ↔ Contains self.old.failing.items (counted self.old.made) }
        ensures counts { self.new ≡ record self.old { made = counted self.old.made } }
    {
        self.made = self.made.saturating_add(1);
        self.failing.contains(&self.made)
    }

    /// Counts a fault.
    pub fn fail(&mut self)
        ensures counts { self.new ≡ record self.old { faults = counted self.old.faults } }
        ensures never_falls { self.old.faults ≤ self.new.faults }
    {
        self.faults = self.faults.saturating_add(1);
    }
}
