// Bytes that come, and bytes that go.
ghost use Rattle.std.specs.Prelude.{ℕ, List, Option};
ghost use Rattle.sds_outside.specs.Causes.{HasCause};
ghost use Rattle.sds_outside.specs.Told.{Reads, Writes};

use crate::Failed;

/// Where bytes come from. A source that tells the bytes that are left goes on telling in each call, and one
/// that doesn't tell never begins to.
pub trait Source {
    /// The bytes that are left, where the source tells them.
    ghost left: { Self → Option (List ℕ) };

    /// How often it failed; it never falls, and stands still at the last value of a u64.
    ghost faults: { Self → ℕ };

    /// Puts the next bytes at the front of `into` and answers how many. 0 into a slice that isn't empty
    /// means the end. Where it failed, the bytes that are left are as before.
    fn read(&mut self, into: &mut [u8]) -> Result<usize, Failed>
        ensures bytes { Reads (left self.old) (left self.new) result into.new }
        ensures cause { HasCause (faults self.old) (faults self.new) result };
}

/// Where bytes go. A sink that tells the bytes that it took goes on telling in each call, and one that
/// doesn't tell never begins to.
pub trait Sink {
    /// The bytes taken, where the sink tells them.
    ghost taken: { Self → Option (List ℕ) };

    /// How often it failed; it never falls, and stands still at the last value of a u64.
    ghost faults: { Self → ℕ };

    /// Takes bytes from the front of `bytes` and answers how many: at least 1 of a piece that isn't empty.
    /// Where it failed, the bytes taken are as before.
    fn write(&mut self, bytes: &[u8]) -> Result<usize, Failed>
        ensures bytes { Writes (taken self.old) (taken self.new) result bytes.now }
        ensures cause { HasCause (faults self.old) (faults self.new) result };
}
