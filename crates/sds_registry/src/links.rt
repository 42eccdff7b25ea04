//! Which groups are joined by links.
ghost use Rattle.std.specs.Prelude.{◌≡◌, option_copied, slice_get};
ghost use Rattle.std.specs.Str.{bytes_eq, chars, encode_utf8_all};
ghost use Rattle.sds_history.specs.history.Links.{are_linked, has_way, link_leads};
ghost use Rattle.sds_trade.specs.rules.Places as places;

use sds_base::Txt;
use sds_types::{Config, LinkDef};

/// Whether a link stands between two groups, whichever way it leads.
pub fn are_linked(config: &Config, a: &str, b: &str) -> bool
    ensures { result ≡ are_linked config.now (chars a.now) (chars b.now) }
{
    has_way(config, a, b) || has_way(config, b, a)
}

/// Whether a link leads from one group to another.
fn has_way(config: &Config, from: &str, to: &str) -> bool
    ensures { result ≡ has_way config.now (chars from.now) (chars to.now) }
{
    config
        .links
        .inner()
        .iter()
        .any(|link| link_leads(config, link, from, to))
}

/// Whether this link leads from one group to another.
fn link_leads(config: &Config, link: &LinkDef, from: &str, to: &str) -> bool
    ensures { result ≡ link_leads config.now (chars from.now) (chars to.now) link.now }
{
    is_named(config, link.source, from) && is_named(config, link.target, to)
}

/// Whether the group at a place has this name.
fn is_named(config: &Config, group: u32, name: &str) -> bool
    ensures { result ≡ bytes_eq (places.group_name config.now.groups group) (chars name.now) }
{
    group_name(config, group) == name
}

/// The name of the group at a place, which is empty past the last one.
fn group_name(config: &Config, group: u32) -> &str
    ensures chars { chars result.now ≡ places.group_name config.now.groups group }
    ensures bytes { result.now ≡ encode_utf8_all (places.group_name config.now.groups group) }
{
    match group_at(config, group) {
        Some(name) => name.as_str(),
        None => "",
    }
}

/// The group at a place.
fn group_at(config: &Config, group: u32) -> Option<&Txt>
    ensures { option_copied result ≡ slice_get config.now.groups group }
{
    config.groups.inner().get(group as usize)
}
