ghost use Rattle.std.specs.Prelude.{◌≡◌, IfOk, IsTrue};
ghost use Rattle.sds_first_world.specs.Words.{is_plain};

use sds_base::{NoMemory, Txt};
use std::alloc::Global;

/// A copy of a word in ASCII, whose characters are its bytes.
pub fn word(alloc: Global, word: &str) -> Result<Txt, NoMemory>
    requires { IsTrue (is_plain word.now) }
    ensures { IfOk result (λ copy. copy ≡ word.now) }
{
    Txt::copied(alloc, word)
}
