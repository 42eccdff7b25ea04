//! The reading of a text character by character, whatever its form.
ghost use Rattle.std.specs.Prelude.{◌≡◌, IfOk};
ghost use Rattle.sds_expressions.specs.Automaton.{run};

use sds_base::NoMemory;
use std::alloc::Global;

/// The state of a reading, which says a value in the end.
pub trait Automaton<T>: Drop {
    ghost use Rattle.std.specs.Prelude.{◌≡◌, ℕ, Option, IfOk};
    ghost use Rattle.sds_expressions.specs.Automaton.{LeadsTo};

    ghost step: { Self → ℕ → Option Self };

    ghost finish: { Self → Option T };

    /// Reads a character, and says whether a continuation has the form.
    fn read(&mut self, alloc: Global, c: char) -> Result<bool, NoMemory>
        ensures { LeadsTo result self.new (step self.old c) };

    /// What a text says that ends here, where it may.
    fn end(self, alloc: Global) -> Result<Option<T>, NoMemory>
        ensures { IfOk result (λ value. value ≡ finish self) };
}

/// Reads a text from its first state: what it says, or the place of the first character, from 0,
/// from which no continuation has the form; where the text ends too early that is its length.
pub fn read_text<T: Drop, A: Automaton<T>>(
    alloc: Global,
    first: A,
    text: &[char],
) -> Result<Result<T, usize>, NoMemory>
    ensures { IfOk result (λ read. read ≡ run A.step A.finish 0 first text.now) }
{
    let mut state = first;
    for (place, c) in text.iter().enumerate() {
        if !state.read(alloc, *c)? {
            return Ok(Err(place));
        }
    }
    match state.end(alloc)? {
        Some(value) => Ok(Ok(value)),
        None => Ok(Err(text.len())),
    }
}
