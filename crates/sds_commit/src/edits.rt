//! The edits of an act, one after another.
ghost use Rattle.std.specs.Prelude.{◌≡◌, ◌++◌, ◌∷◌, [], OnOk};
ghost use Rattle.sds_records.specs.Parts.{FitsPart, put_edit, record_of_part};

use sds_base::NoMemory;
use sds_image::{Part, put_part};
use sds_outside::Edit;
use sds_types::Config;
use std::alloc::Global;

/// Adds the edit that puts the record of a part.
pub fn push_put(
    alloc: Global,
    config: &Config,
    part: &Part<'_>,
    edits: &mut Vec<Edit>,
) -> Result<(), NoMemory>
    requires { FitsPart config.now part.now }
    ensures { OnOk result (edits.new.items
        ≡ edits.old.items ++ put_edit (record_of_part config.now part.now) ∷ []) }
{
    edits.push(put_part(alloc, config, part)?)?;
    Ok(())
}
