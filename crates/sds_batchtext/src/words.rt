//! Words of a document.
ghost use Rattle.std.specs.Prelude.{◌≡◌, IsTrue};
ghost use Rattle.std.specs.Str.{bytes_eq};
ghost use Rattle.sds_batchtext.specs.Words.{is_plain};

use sds_base::Txt;

/// Whether the text is this word in ASCII.
pub(crate) fn is_word(text: &Txt, word: &str) -> bool
    requires { IsTrue (is_plain word.now) }
    ensures { result ≡ bytes_eq text.now word.now }
{
    text.is(word)
}
