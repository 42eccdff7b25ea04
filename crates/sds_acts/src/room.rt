//! Room in vectors, taken before a commit.
ghost use Rattle.std.specs.Prelude.{◌≡◌, ◌+◌, ◌≤◌, OnOk, vec_capacity, vec_len};

use sds_base::NoMemory;

/// Takes room for so many more items.
pub(crate) fn make_room<T>(items: &mut Vec<T>, count: usize) -> Result<(), NoMemory>
    ensures items { items.new.items ≡ items.old.items }
    ensures room { OnOk result (vec_len items.new + count ≤ vec_capacity items.new) }
{
    items.reserve(count)?;
    Ok(())
}
