//! Texts as lists of characters.
ghost use Rattle.std.specs.Prelude.{◌≡◌, ◌==◌, ◌++◌, ◌∷◌, [], true, IfOk, OnOk, string_bytes};
ghost use Rattle.std.specs.Str.{all_scalars, chars, encode_utf8_all};
ghost use Rattle.std.specs.List.{starts_with};
ghost use Rattle.sds_value.specs.Names as names;

use sds_base::{List, NoMemory, Txt};
use std::alloc::Global;

/// The most characters that a name has.
pub const LONGEST_NAME: usize = 50;

/// The characters of a text.
pub fn characters_of(alloc: Global, text: &str) -> Result<Vec<char>, NoMemory>
    ensures { IfOk result (λ characters. characters.items ≡ chars text.now) }
{
    Ok(text.chars().collect(alloc)?)
}

/// The text of these characters.
pub fn text_of(alloc: Global, characters: &[char]) -> Result<Txt, NoMemory>
    ensures { IfOk result (λ text. text ≡ characters.now) }
{
    let mut text = String::new(alloc);
    for character in characters {
        put(&mut text, *character)?;
    }
    Ok(Txt::of(text))
}

fn put(text: &mut String, character: char) -> Result<(), NoMemory>
    ensures bytes { OnOk result (string_bytes text.new ≡ string_bytes text.old
        ++ encode_utf8_all (character ∷ [])) }
    ensures scalar { OnOk result (all_scalars (character ∷ []) ≡ true) }
{
    text.push(character)?;
    Ok(())
}

/// Whether the text begins with this prefix.
pub fn begins(text: &[char], prefix: &[char]) -> bool
    ensures { result ≡ starts_with (λ a b. a == b) text.now prefix.now }
{
    text.starts_with(prefix)
}

/// Whether the character may stand in a name.
pub fn is_name_character(character: char) -> bool
    ensures { result ≡ names.is_name_character character }
{
    character.is_ascii_alphanumeric() || character == '_' || character == '-'
}

/// The list of one character.
pub fn one(alloc: Global, c: char) -> Result<List<char>, NoMemory>
    ensures { IfOk result (λ list. list ≡ c ∷ []) }
{
    let mut list = List::new(alloc);
    list.push(c)?;
    Ok(list)
}
