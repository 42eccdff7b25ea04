ghost use Rattle.std.specs.Prelude.{◌≡◌};

use std::marker::Model;

/// Bytes that contracts see as a list of numbers below 256.
#[derive(Debug, Drop)]
pub struct Bytes {
    items: Vec<u8>,
}

impl Model for Bytes {
    ghost use Rattle.std.specs.Prelude.{List, ℕ};

    ghost Value = { List ℕ };

    ghost view = { λ it. it.items.items };
}

impl Bytes {
    /// These bytes.
    pub fn of(inner: Vec<u8>) -> Bytes
        ensures { result ≡ inner.items }
    {
        Bytes { items: inner }
    }

    /// The vector of the bytes, to read.
    pub fn inner(&self) -> &Vec<u8>
        ensures { result.now.items ≡ self.now }
    {
        &self.items
    }

    /// The vector of the bytes.
    pub fn into_inner(self) -> Vec<u8>
        ensures { result.items ≡ self }
    {
        let Bytes { items } = self;
        items
    }
}
