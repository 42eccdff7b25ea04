//! Numbers that are written plainly.
ghost use Rattle.std.specs.Prelude.{◌≡◌, ◌≤◌, true, IfSome};
ghost use Rattle.std.specs.List.{list_all};
ghost use Rattle.std.specs.Char.{is_ascii_digit};
ghost use Rattle.sds_expressions.specs.Numbers as wanted;

/// The number that a text writes plainly, where it is at most this: decimal digits, no sign, no
/// leading zero.
pub fn plain_number(text: &[u8], most: u32) -> Option<u32>
    requires { most ≤ 100000000 }
    ensures number { result ≡ wanted.plain_number most text.now }
    ensures bound { IfSome result (λ number. number ≤ most) }
{
    if !is_plain(text) {
        return None;
    }
    number_up_to(text, most)
}

fn is_plain(text: &[u8]) -> bool
    ensures { result ≡ wanted.is_plain text.now }
{
    !text.is_empty() && all_digits(text) && !is_padded(text)
}

fn all_digits(text: &[u8]) -> bool
    ensures { result ≡ list_all is_ascii_digit text.now }
{
    text.iter().all(|byte| byte.is_ascii_digit())
}

fn is_padded(text: &[u8]) -> bool
    ensures { result ≡ wanted.is_padded text.now }
{
    match text {
        [first, _, ..] => *first == b'0',
        _ => false,
    }
}

fn number_up_to(digits: &[u8], most: u32) -> Option<u32>
    requires digits { list_all is_ascii_digit digits.now ≡ true }
    requires most { most ≤ 100000000 }
    ensures number { result ≡ wanted.up_to most (wanted.number_from 0 digits.now) }
    ensures bound { IfSome result (λ number. number ≤ most) }
{
    let mut number = 0;
    for digit in digits {
        number = number * 10 + (*digit - b'0') as u32;
        if number > most {
            return None;
        }
    }
    Some(number)
}
