//! A section: an array of entries, read in their order.
ghost use Rattle.std.specs.Prelude.{◌≡◌, ◌≤◌, [], IfOk, MatchResult, length, vec_len};
ghost use Rattle.toml.specs.View.{table_view, items_view, view};
ghost use Rattle.sds_config.specs.Refusals.{Answers, Refuses};
ghost use Rattle.sds_config.specs.Limits.{IsWithinLimits};
ghost use Rattle.sds_config.specs.Sections as wanted;

use crate::fields::{entry_path, field, field_path};
use crate::{Config, ConfigRefusal};
use sds_base::Txt;
use std::alloc::Global;
use toml::{Table, Value};

/// An entry of a section.
pub trait Entry: Drop {
    ghost use Rattle.std.specs.Prelude.{◌≤◌, List, ℕ, Result, length};
    ghost use Rattle.toml.specs.Data.{Members};
    ghost use Rattle.toml.specs.View.{table_view};
    ghost use Rattle.sds_types.specs.declared.config.Config.{Config};
    ghost use Rattle.sds_types.specs.declared.config_refusal.ConfigRefusal.{ConfigRefusal};
    ghost use Rattle.sds_config.specs.Refusals.{Answers};
    ghost use Rattle.sds_config.specs.Limits.{IsWithinLimits};

    ghost entry_of: { Config → List Self → Members → List ℕ → Result Self ConfigRefusal };

    /// Reads the entry at this path, which knows the earlier sections and the earlier entries of its own.
    fn read(
        alloc: Global,
        config: &Config,
        earlier: &[Self],
        table: &Table,
        at: &str,
    ) -> Result<Self, ConfigRefusal>
        requires config { IsWithinLimits config.now }
        requires earlier { length earlier.now ≤ 1024 }
        ensures { Answers result (entry_of config.now earlier.now (table_view table.now) at.now) };
}

/// Reads a section of the file, which has at most so many entries.
pub fn read_section<E: Entry>(
    alloc: Global,
    config: &Config,
    file: &Table,
    section: &str,
    most: usize,
) -> Result<Vec<E>, ConfigRefusal>
    requires config { IsWithinLimits config.now }
    requires most { most ≤ 1024 }
    ensures answer { MatchResult result (λ v. wanted.section_of E.entry_of most section.now config.now (table_view file.now) ≡ Ok v.items) (Refuses (wanted.section_of E.entry_of most section.now config.now (table_view file.now))) }
    ensures bound { IfOk result (λ v. vec_len v ≤ most) }
{
    match field(file, section) {
        None => Ok(Vec::new(alloc)),
        Some(value) => {
            let items = items_at(alloc, value, "", section, section, most)?;
            read_entries(alloc, config, items, section)
        }
    }
}

#[tactic(auto, using(crate::proofs::Counts::count_items))]
/// The items of an array, which are at most so many: more are refused under the name.
pub fn items_at<'a>(
    alloc: Global,
    value: &'a Value,
    at: &str,
    key: &str,
    name: &str,
    most: usize,
) -> Result<&'a [Value], ConfigRefusal>
    ensures answer { MatchResult result (λ items. wanted.items_at most name.now (view value.now) at.now key.now ≡ Ok (items_view items.now)) (Refuses (wanted.items_at most name.now (view value.now) at.now key.now)) }
    ensures bound { IfOk result (λ items. length items.now ≤ most) }
{
    match value.as_array() {
        None => Err(ConfigRefusal::WrongType(field_path(alloc, at, key)?)),
        Some(items) if items.len() > most => Err(ConfigRefusal::TooMany(Txt::copied(alloc, name)?)),
        Some(items) => Ok(items.as_slice()),
    }
}

/// Reads the entries of a section's items.
pub fn read_entries<E: Entry>(
    alloc: Global,
    config: &Config,
    items: &[Value],
    section: &str,
) -> Result<Vec<E>, ConfigRefusal>
    requires config { IsWithinLimits config.now }
    requires most { length items.now ≤ 1024 }
    ensures answer { MatchResult result (λ v. wanted.entries_from E.entry_of config.now section.now [] (items_view items.now) ≡ Ok v.items) (Refuses (wanted.entries_from E.entry_of config.now section.now [] (items_view items.now))) }
    ensures bound { IfOk result (λ v. vec_len v ≤ length items.now) }
{
    let mut entries: Vec<E> = Vec::new(alloc);
    for item in items {
        let entry = read_entry(alloc, config, entries.as_slice(), item, section)?;
        entries.push(entry)?;
    }
    Ok(entries)
}

fn read_entry<E: Entry>(
    alloc: Global,
    config: &Config,
    earlier: &[E],
    value: &Value,
    section: &str,
) -> Result<E, ConfigRefusal>
    requires config { IsWithinLimits config.now }
    requires earlier { length earlier.now ≤ 1024 }
    ensures { Answers result (wanted.entry_at E.entry_of config.now section.now earlier.now (view value.now)) }
{
    let at = entry_path(alloc, section, earlier.len())?;
    match value.as_table() {
        None => Err(ConfigRefusal::WrongType(Txt::of(at))),
        Some(table) => E::read(alloc, config, earlier, table, at.as_str()),
    }
}
