ghost use Rattle.std.specs.Prelude.{◌≡◌, ◌<◌, ◌≤◌, IsTrue};
ghost use Rattle.sds_line.specs.Characters.{whole, is_lead, lowest, highest, lead_of, next_of, HasRoom};

/// What has come of a character whose UTF-8 has more than one byte.
#[derive(Clone, Copy, Debug)]
pub(crate) struct Partial {
    /// How many of its bytes are still to come, 0 between characters.
    pub wanted: u8,
    /// The bits of its bytes so far.
    pub bits: u32,
    /// The least byte that may come next.
    pub low: u8,
    /// The greatest byte that may come next.
    pub high: u8,
}

/// Between two characters.
pub(crate) fn whole() -> Partial
    ensures whole { result ≡ whole }
    ensures room { HasRoom result }
{
    Partial {
        wanted: 0,
        bits: 0,
        low: 0,
        high: 0,
    }
}

/// What has come behind the first byte of a character of more than one byte.
pub(crate) fn lead_of(byte: u8) -> Partial
    requires { IsTrue (is_lead byte) }
    ensures lead { result ≡ lead_of byte }
    ensures room { HasRoom result }
{
    let low = lowest(byte);
    let high = highest(byte);
    if byte < 224 {
        Partial {
            wanted: 1,
            bits: (byte - 192) as u32,
            low,
            high,
        }
    } else if byte < 240 {
        Partial {
            wanted: 2,
            bits: (byte - 224) as u32,
            low,
            high,
        }
    } else {
        Partial {
            wanted: 3,
            bits: (byte - 240) as u32,
            low,
            high,
        }
    }
}

/// Whether a character of more than one byte begins so.
pub(crate) fn is_lead(byte: u8) -> bool
    ensures { result ≡ is_lead byte }
{
    byte >= 0xC2 && byte <= 0xF4
}

/// The least second byte.
fn lowest(byte: u8) -> u8
    ensures lowest { result ≡ lowest byte }
    ensures room { 128 ≤ result }
{
    match byte {
        0xE0 => 0xA0,
        0xF0 => 0x90,
        _ => 0x80,
    }
}

/// The greatest second byte.
fn highest(byte: u8) -> u8
    ensures highest { result ≡ highest byte }
    ensures room { result ≤ 0xBF }
{
    match byte {
        0xED => 0x9F,
        0xF4 => 0x8F,
        _ => 0xBF,
    }
}

/// What has come behind one more byte.
pub(crate) fn next_of(partial: Partial, byte: u8) -> Partial
    requires wanted { 0 < partial.wanted }
    requires room { HasRoom partial }
    requires low { 128 ≤ byte }
    requires high { byte ≤ 0xBF }
    ensures next { result ≡ next_of partial byte }
    ensures room { HasRoom result }
{
    Partial {
        wanted: partial.wanted - 1,
        bits: partial.bits * 64 + (byte - 128) as u32,
        low: 0x80,
        high: 0xBF,
    }
}
