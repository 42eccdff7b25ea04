//! The edits that put and drop the record of a part.
ghost use Rattle.std.specs.Prelude.{◌≡◌, IfOk};
ghost use Rattle.sds_records.specs.Parts.{FitsPart, drop_edit, put_edit, record_of_part};

use crate::Part;
use crate::fields::body_of;
use crate::keys::key_of;
use sds_base::NoMemory;
use sds_outside::Edit;
use sds_types::Config;
use std::alloc::Global;

/// The edit that puts the record of a part: the part's key, and its fields as a line. The forms of
/// records are symds' own. The values of a row or a change are those of its table's columns.
pub fn put_part(alloc: Global, config: &Config, part: &Part<'_>) -> Result<Edit, NoMemory>
    requires { FitsPart config.now part.now }
    ensures { IfOk result (λ edit. edit ≡ put_edit (record_of_part config.now part.now)) }
{
    let key = key_of(alloc, config, part)?;
    let body = body_of(alloc, config, part)?;
    Ok(Edit {
        key,
        body: Some(body),
    })
}

/// The edit that drops the record of a part, whose values are as for `put_part`.
pub fn drop_part(alloc: Global, config: &Config, part: &Part<'_>) -> Result<Edit, NoMemory>
    requires { FitsPart config.now part.now }
    ensures { IfOk result (λ edit. edit ≡ drop_edit (record_of_part config.now part.now)) }
{
    Ok(Edit {
        key: key_of(alloc, config, part)?,
        body: None,
    })
}
