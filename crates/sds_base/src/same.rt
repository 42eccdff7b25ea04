ghost use Rattle.std.specs.Prelude.{◌≡◌, ◌↔◌, IsTrue, length};

use crate::{Bytes, List, Txt};

/// A test of equality that is exact: true exactly where contracts see one value.
pub trait Same {
    /// Whether contracts see the same value.
    fn same(&self, other: &Self) -> bool
        ensures { IsTrue result ↔ (self.now ≡ other.now) };
}

impl Same for u8 {
    fn same(&self, other: &u8) -> bool {
        *self == *other
    }
}

impl Same for u16 {
    fn same(&self, other: &u16) -> bool {
        *self == *other
    }
}

impl Same for u32 {
    fn same(&self, other: &u32) -> bool {
        *self == *other
    }
}

impl Same for u64 {
    fn same(&self, other: &u64) -> bool {
        *self == *other
    }
}

impl Same for i32 {
    fn same(&self, other: &i32) -> bool {
        *self == *other
    }
}

impl Same for i64 {
    fn same(&self, other: &i64) -> bool {
        *self == *other
    }
}

impl Same for bool {
    fn same(&self, other: &bool) -> bool {
        *self == *other
    }
}

impl Same for Bytes {
    fn same(&self, other: &Bytes) -> bool {
        self.inner() == other.inner()
    }
}

impl Same for Txt {
    fn same(&self, other: &Txt) -> bool {
        self.as_str() == other.as_str()
    }
}

impl<T: Same> Same for Option<T> {
    fn same(&self, other: &Option<T>) -> bool {
        match (self, other) {
            (None, None) => true,
            (Some(a), Some(b)) => a.same(b),
            _ => false,
        }
    }
}

impl<T: Same> Same for List<T> {
    fn same(&self, other: &List<T>) -> bool {
        same_items(self.inner().as_slice(), other.inner().as_slice())
    }
}

/// Whether two slices hold the same values, element by element.
fn same_items<T: Same>(a: &[T], b: &[T]) -> bool
    ensures { IsTrue result ↔ (a.now ≡ b.now) }
{
    if a.len() != b.len() {
        return false;
    }
    for (i, x) in a.iter().enumerate() {
        if !x.same(&b[i]) {
            return false;
        }
    }
    true
}
