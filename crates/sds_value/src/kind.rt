use sds_base::{List, NoMemory, Same, Twin, Txt};
use std::alloc::Global;

/// How bytes are written in a document: padded base64, hexadecimal, or not at all.
#[derive(Clone, Copy, Debug, PartialEq, Eq)]
pub enum Binary {
    /// Base64 with padding, by RFC 4648.
    Base64,
    /// Two hexadecimal digits for each byte.
    Hex,
    /// Not at all.
    Plain,
}

/// What a column holds. The kinds, their texts and their limits are symds' own.
#[derive(Clone, Copy, Debug, PartialEq, Eq)]
pub enum Kind {
    /// A number of 64 bits with a sign.
    Integer,
    /// A number with this many digits behind the point, 0 to 9.
    Decimal(u8),
    /// A text of at most this many characters, 1 to 2,000.
    Varchar(u16),
    /// A day and a time of day to the nanosecond, in the years 0001 to 9999.
    Timestamp,
    /// At most this many bytes, 1 to 4,000.
    Varbinary(u16),
}

/// A value of a column.
#[derive(Debug, Drop)]
pub enum Value {
    /// The absence of a value, of any kind.
    Null,
    /// A number of 64 bits with a sign.
    Integer(i64),
    /// A number of units of the kind's last digit.
    Decimal(i64),
    /// A text of characters.
    Text(Txt),
    /// The day's number from 1970-01-01, and the nanosecond of the day.
    Stamp { day: i32, nano: u64 },
    /// Bytes.
    Bin(List<u8>),
}

impl Same for Value {
    fn same(&self, other: &Value) -> bool {
        match (self, other) {
            (Value::Null, Value::Null) => true,
            (Value::Integer(a), Value::Integer(b)) => a.same(b),
            (Value::Decimal(a), Value::Decimal(b)) => a.same(b),
            (Value::Text(a), Value::Text(b)) => a.same(b),
            (Value::Stamp { day, nano }, Value::Stamp { day: d, nano: n }) => {
                day.same(d) && nano.same(n)
            }
            (Value::Bin(a), Value::Bin(b)) => a.same(b),
            _ => false,
        }
    }
}

impl Twin for Value {
    fn twin(&self, alloc: Global) -> Result<Value, NoMemory> {
        match self {
            Value::Null => Ok(Value::Null),
            Value::Integer(number) => Ok(Value::Integer(*number)),
            Value::Decimal(units) => Ok(Value::Decimal(*units)),
            Value::Text(text) => Ok(Value::Text(text.twin(alloc)?)),
            Value::Stamp { day, nano } => Ok(Value::Stamp {
                day: *day,
                nano: *nano,
            }),
            Value::Bin(bytes) => Ok(Value::Bin(bytes.twin(alloc)?)),
        }
    }
}
