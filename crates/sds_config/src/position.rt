//! Lines and columns of a text in UTF-8.
ghost use Rattle.std.specs.Prelude.{◌≡◌, ◌≤◌, ◌<◌, ◌+◌, ◌^◌, ◌==◌, if◌then◌else◌, length};
ghost use Rattle.sds_config.specs.Positions as wanted;

/// A line and a column, from 1. A column counts characters.
#[derive(Clone, Copy, Debug)]
pub struct Position {
    pub line: u32,
    pub column: u32,
}

/// The position after these bytes.
pub fn position_after(before: &[u8]) -> Position
    requires { length before.now ≤ 2 ^ 20 }
    ensures line { result.line ≡ wanted.line_from 1 before.now }
    ensures column { result.column ≡ wanted.column_from 1 before.now }
{
    let mut line = 1;
    let mut column = 1;
    for byte in before {
        line = next_line(line, *byte);
        column = next_column(column, *byte);
    }
    Position { line, column }
}

fn next_line(line: u32, byte: u8) -> u32
    requires { line ≤ 2 ^ 21 }
    ensures next { result ≡ (if byte == 10 then line + 1 else line) }
    ensures bound { result ≤ line + 1 }
{
    if byte == b'\n' { line + 1 } else { line }
}

fn next_column(column: u32, byte: u8) -> u32
    requires { column ≤ 2 ^ 21 }
    ensures next { result ≡ wanted.next_column column byte }
    ensures bound { 0 < column → result ≤ column + 1 }
{
    if byte == b'\n' {
        1
    } else if begins_character(byte) {
        column + 1
    } else {
        column
    }
}

fn begins_character(byte: u8) -> bool
    ensures { result ≡ wanted.begins_character byte }
{
    !(128 <= byte && byte < 192)
}
