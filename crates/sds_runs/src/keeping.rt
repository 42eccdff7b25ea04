//! Room in a node's lists, taken before a commit.
ghost use Rattle.std.specs.Prelude.{◌≡◌, ◌+◌, ◌++◌, ◌<◌, ◌≤◌, OnOk, length, vec_len, vec_capacity};

use sds_base::{List, NoMemory};
use sds_types::Change;

/// Takes room for so many more changes, and for one more item of another list.
pub(crate) fn take_room<T: Drop>(
    changes: &mut Vec<Change>,
    count: usize,
    items: &mut Vec<T>,
) -> Result<(), NoMemory>
    ensures changes { OnOk result (vec_len changes.new + count ≤ vec_capacity changes.new) }
    ensures item { OnOk result (vec_len items.new < vec_capacity items.new) }
    ensures rest { (changes.new.items ≡ changes.old.items) × (items.new.items ≡ items.old.items) }
{
    changes.reserve(count)?;
    items.reserve(1)?;
    Ok(())
}

/// Puts changes after others, where there is room for them.
pub(crate) fn append(changes: &mut Vec<Change>, new: List<Change>)
    requires { vec_len changes.old + length new ≤ vec_capacity changes.old }
    ensures { changes.new.items ≡ changes.old.items ++ new }
{
    let mut new = new.into_inner();
    changes.append(&mut new).unwrap();
}
