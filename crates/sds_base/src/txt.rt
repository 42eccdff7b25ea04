ghost use Rattle.std.specs.Prelude.{◌≡◌, ◌↔◌, IsTrue, IfOk, [], string_bytes};
ghost use Rattle.std.specs.Str.{bytes_eq, chars, encode_utf8_all};
ghost use Rattle.std.specs.Cmp.{partial_equiv_from_equiv};
ghost use Rattle.std.specs.Cmp.Lexicographic.{nat_list_eq_equiv};

use crate::NoMemory;
use std::alloc::Global;
use std::marker::Model;

/// A text that contracts see as the list of its characters.
#[derive(Debug, Drop)]
pub struct Txt {
    text: String,
}

impl Model for Txt {
    ghost use Rattle.std.specs.Prelude.{List, ℕ, string_bytes};
    ghost use Rattle.std.specs.Str.{chars};

    ghost Value = { List ℕ };

    ghost view = { λ it. chars (string_bytes it.text) };
}

impl Txt {
    /// This text.
    pub fn of(inner: String) -> Txt
        ensures { result ≡ chars (string_bytes inner) }
    {
        Txt { text: inner }
    }

    /// A copy of this text.
    pub fn copied(alloc: Global, text: &str) -> Result<Txt, NoMemory>
        ensures { IfOk result (λ copy. copy ≡ chars text.now) }
    {
        Ok(Txt::of(String::from_str(alloc, text)?))
    }

    /// The string of the text, to read.
    pub fn inner(&self) -> &String
        ensures { chars (string_bytes result.now) ≡ self.now }
    {
        &self.text
    }

    /// The text, to read: its characters in UTF-8.
    pub fn as_str(&self) -> &str
        ensures chars { chars result.now ≡ self.now }
        ensures bytes { result.now ≡ encode_utf8_all self.now }
    {
        self.text.as_str()
    }

    /// Whether it is this text.
    pub fn is(&self, text: &str) -> bool
        ensures { result ≡ bytes_eq self.now (chars text.now) }
    {
        self.as_str() == text
    }

    /// Whether the text has no characters.
    pub fn is_empty(&self) -> bool
        ensures { IsTrue result ↔ (self.now ≡ []) }
    {
        self.as_str().is_empty()
    }

    /// The string of the text.
    pub fn into_inner(self) -> String
        ensures { chars (string_bytes result) ≡ self }
    {
        let Txt { text } = self;
        text
    }
}

// Two texts are equal exactly where their characters are, as a look-up by name tests.
impl PartialEq for Txt {
    ghost eq = { bytes_eq };

    ghost laws = { partial_equiv_from_equiv nat_list_eq_equiv };

    fn eq(&self, other: &Txt) -> bool {
        self.as_str() == other.as_str()
    }
}

impl Eq for Txt {
    ghost laws = { nat_list_eq_equiv };
}
