// The calls of a fake, counted, and those that fail.
ghost use Rattle.std.specs.Prelude.{◌≡◌};
ghost use Rattle.sds_outside.specs.Causes.{next_number, is_listed};

use sds_base::List;

/// How many calls were made, and the numbers of those that fail, counted from 1.
#[derive(Drop)]
pub struct Calls {
    pub fails: List<u64>,
    pub made: u64,
}

impl Calls {
    /// Before the first call.
    pub fn new(fails: List<u64>) -> Calls
        ensures { result ≡ record { fails = fails; made = 0 } }
    {
        Calls { fails, made: 0 }
    }

    /// Counts one more call: whether it fails.
    pub fn next_fails(&mut self) -> bool
        ensures made { self.new.made ≡ next_number self.old.made }
        ensures fails { self.new.fails ≡ self.old.fails }
        ensures listed { result ≡ is_listed self.old.fails self.new.made }
    {
        self.made = self.made.saturating_add(1);
        self.fails.inner().contains(&self.made)
    }
}
