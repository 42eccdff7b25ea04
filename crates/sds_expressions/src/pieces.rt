//! Pieces of texts.
ghost use Rattle.std.specs.Prelude.{◌≡◌, ◌<◌, [], ◌∷◌, MatchOption, length, option_map};
ghost use Rattle.sds_expressions.specs.Pieces as wanted;

/// What stands after the prefix, where the text begins with it.
pub fn behind<'a>(text: &'a str, prefix: &str) -> Option<&'a str>
    ensures { option_map (λ rest. rest.now) result ≡ wanted.behind prefix.now text.now }
{
    text.strip_prefix(prefix)
}

/// What stands before the first such character and after it, where there is one. The character is
/// an ASCII one.
pub fn split_at(text: &str, mark: char) -> Option<(&str, &str)>
    requires { mark < 128 }
    ensures parts { option_map (λ parts. (parts.0.now, parts.1.now)) result
        ≡ wanted.split_at mark text.now }
    ensures pieces { MatchOption result (wanted.split mark text.now
        ≡ text.now ∷ []) (λ parts. (wanted.split mark text.now
        ≡ parts.0.now ∷ wanted.split mark parts.1.now) × (length parts.1.now < length text.now)) }
{
    text.split_once(mark)
}
