ghost use Rattle.std.specs.Prelude.{◌≡◌};
ghost use Rattle.std.specs.List.{list_all};
ghost use Rattle.std.specs.Str.{chars};
ghost use Rattle.sds_value.specs.Names.{is_name_text, is_name_character};

/// Whether the text may name a node, a group, a table, a column or an entry of the configuration: 1 to 50
/// characters, each an ASCII letter, an ASCII digit, `_` or `-`. The rule is symds' own.
pub fn is_name(text: &str) -> bool
    ensures { result ≡ is_name_text (chars text.now) }
{
    are_name_bytes(text.as_bytes())
}

fn are_name_bytes(bytes: &[u8]) -> bool
    ensures { result ≡ is_name_text bytes.now }
{
    if bytes.is_empty() || bytes.len() > 50 {
        return false;
    }
    all_name_bytes(bytes)
}

fn all_name_bytes(bytes: &[u8]) -> bool
    ensures { result ≡ list_all is_name_character bytes.now }
{
    bytes.iter().all(|byte| is_name_byte(*byte))
}

fn is_name_byte(byte: u8) -> bool
    ensures { result ≡ is_name_character byte }
{
    byte.is_ascii_alphanumeric() || byte == b'_' || byte == b'-'
}
