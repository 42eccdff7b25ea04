ghost use Rattle.std.specs.Prelude.{◌≡◌, IfOk};

use crate::{Bytes, List, NoMemory, Txt};
use std::alloc::Global;

/// A copy that is exact: contracts see the same value.
pub trait Twin: Drop {
    /// A copy of the value.
    fn twin(&self, alloc: Global) -> Result<Self, NoMemory>
        ensures { IfOk result (λ copy. copy ≡ self.now) };
}

impl Twin for u8 {
    fn twin(&self, _alloc: Global) -> Result<u8, NoMemory> {
        Ok(*self)
    }
}

impl Twin for u32 {
    fn twin(&self, _alloc: Global) -> Result<u32, NoMemory> {
        Ok(*self)
    }
}

impl Twin for u64 {
    fn twin(&self, _alloc: Global) -> Result<u64, NoMemory> {
        Ok(*self)
    }
}

impl Twin for Bytes {
    fn twin(&self, alloc: Global) -> Result<Bytes, NoMemory> {
        Ok(Bytes::of(self.inner().as_slice().to_vec(alloc)?))
    }
}

impl Twin for Txt {
    fn twin(&self, alloc: Global) -> Result<Txt, NoMemory> {
        Ok(Txt::of(String::from_str(alloc, self.as_str())?))
    }
}

impl<T: Twin> Twin for Option<T> {
    fn twin(&self, alloc: Global) -> Result<Option<T>, NoMemory> {
        match self {
            None => Ok(None),
            Some(x) => Ok(Some(x.twin(alloc)?)),
        }
    }
}

impl<T: Twin> Twin for List<T> {
    fn twin(&self, alloc: Global) -> Result<List<T>, NoMemory> {
        Ok(List::of(twin_items(alloc, self.inner().as_slice())?))
    }
}

/// A copy of a slice, element by element.
fn twin_items<T: Twin>(alloc: Global, items: &[T]) -> Result<Vec<T>, NoMemory>
    ensures { IfOk result (λ copy. copy.items ≡ items.now) }
{
    let mut copy = Vec::new(alloc);
    for x in items {
        copy.push(x.twin(alloc)?)?;
    }
    Ok(copy)
}
