// Which calls of an object in memory are to fail.
ghost use Rattle.std.specs.Prelude.{◌≡◌, ◌≤◌, ◌↔◌, IsTrue};
ghost use Rattle.vec_outside.specs.Causes.{Rose};
ghost use Rattle.vec_outside.specs.Planned.{IsDue, counted, fresh_plan};

/// The numbers of the calls of an object in memory that are to fail, and its counts of those made
/// and of those that failed. Calls are numbered from 1 since the object was made, and a number that
/// is named twice counts once.
#[derive(Drop)]
pub struct Plan {
    /// The numbers of the calls that are to fail, in any order.
    pub fail: Vec<u64>,
    /// Every call with a greater number is to fail too.
    pub stop: u64,
    /// How many calls were made.
    pub calls: u64,
    /// How many of them failed.
    pub faults: u64,
}

impl Plan {
    /// No call was made yet, and only those in the list are to fail.
    pub fn new(fail: Vec<u64>) -> Plan
        ensures { result ≡ fresh_plan fail }
    {
        Plan {
            fail,
            stop: u64::MAX,
            calls: 0,
            faults: 0,
        }
    }

    /// Counts a call, and says whether it is to fail.
    pub fn refuses(&mut self) -> bool
        ensures due { IsTrue result ↔ IsDue self.old }
        ensures counted { self.new ≡ counted self.old result }
        ensures later { self.old.faults ≤ self.new.faults }
        ensures failed { IsTrue result → Rose self.old.faults self.new.faults }
    {
        self.calls = self.calls.saturating_add(1);
        let refused = self.calls > self.stop || self.fail.contains(&self.calls);
        if refused {
            self.faults = self.faults.saturating_add(1);
        }
        refused
    }
}
