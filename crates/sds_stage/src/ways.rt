//! To which peers a node may send, and from which it may take.
ghost use Rattle.std.specs.Prelude.{◌≡◌, option_copied, slice_get, true};
ghost use Rattle.std.specs.Str.{bytes_eq, chars, encode_utf8_all};
ghost use Rattle.sds_history.specs.history.Links as links;
ghost use Rattle.sds_history.specs.world.Exchanging.{may_exchange};
ghost use Rattle.sds_history.specs.world.Sending as sending;
ghost use Rattle.sds_node.specs.Meaning.{has};
ghost use Rattle.sds_stage.specs.Ways.{leads_by};
ghost use Rattle.sds_trade.specs.rules.Places as places;

use sds_base::Txt;
use sds_node::Node;
use sds_outside::MemKeeper;
use sds_types::{Action, Config, LinkDef};

/// Whether a node, which is sure, has this peer, and a link leads to the peer's group.
pub(crate) fn may_send(node: &Node<MemKeeper>, to: &str) -> bool
    requires { node.now.sure ≡ true }
    ensures { result ≡ sending.may_send node.now.config (has node.now) (chars to.now) }
{
    match node.peer(to) {
        Some(peer) => has_way(node.config(), node.me().group.as_str(), peer.group.as_str()),
        None => false,
    }
}

/// Whether a node, which is sure, has this peer, and a link leads from the peer's group.
pub(crate) fn may_take(node: &Node<MemKeeper>, from: &str) -> bool
    requires { node.now.sure ≡ true }
    ensures { result ≡ sending.may_take node.now.config (has node.now) (chars from.now) }
{
    match node.peer(from) {
        Some(peer) => has_way(node.config(), peer.group.as_str(), node.me().group.as_str()),
        None => false,
    }
}

/// Whether a node, which is sure, has this peer, and a link of the kind leads to the peer's group.
pub(crate) fn may_exchange(node: &Node<MemKeeper>, to: &str, action: Action) -> bool
    requires { node.now.sure ≡ true }
    ensures { result ≡ may_exchange (leads_by node.now.config action) (has node.now) (chars to.now) }
{
    match node.peer(to) {
        Some(peer) => {
            let own = node.me().group.as_str();
            let their = peer.group.as_str();
            has_link(node.config(), action, own, their)
        }
        None => false,
    }
}

/// Whether a link leads from one group to another.
fn has_way(config: &Config, from: &str, to: &str) -> bool
    ensures { result ≡ links.has_way config.now (chars from.now) (chars to.now) }
{
    config
        .links
        .inner()
        .iter()
        .any(|link| link_leads(config, link, from, to))
}

/// Whether a link of the kind leads from one group to another.
fn has_link(config: &Config, action: Action, from: &str, to: &str) -> bool
    ensures { result ≡ leads_by config.now action (chars from.now) (chars to.now) }
{
    match action {
        Action::P => has_push(config, from, to),
        Action::W => has_pull(config, from, to),
    }
}

/// Whether a link that pushes leads from one group to another.
fn has_push(config: &Config, from: &str, to: &str) -> bool
    ensures { result ≡ links.has_push config.now (chars from.now) (chars to.now) }
{
    config.links.inner().iter().any(|link| pushes(link.action)
        && link_leads(config, link, from, to))
}

/// Whether a link that waits for a pull leads from one group to another.
fn has_pull(config: &Config, from: &str, to: &str) -> bool
    ensures { result ≡ links.has_pull config.now (chars from.now) (chars to.now) }
{
    config.links.inner().iter().any(|link| waits(link.action) && link_leads(config, link, from, to))
}

fn pushes(action: Action) -> bool
    ensures { result ≡ links.pushes action }
{
    matches!(action, Action::P)
}

fn waits(action: Action) -> bool
    ensures { result ≡ links.waits action }
{
    matches!(action, Action::W)
}

/// Whether this link leads from one group to another.
fn link_leads(config: &Config, link: &LinkDef, from: &str, to: &str) -> bool
    ensures { result ≡ links.link_leads config.now (chars from.now) (chars to.now) link.now }
{
    is_named(config, link.source, from) && is_named(config, link.target, to)
}

/// Whether the group at a place has this name.
fn is_named(config: &Config, group: u32, name: &str) -> bool
    ensures { result ≡ bytes_eq (places.group_name config.now.groups group) (chars name.now) }
{
    group_name(config, group) == name
}

/// The name of the group at a place, which is empty past the last one.
fn group_name(config: &Config, group: u32) -> &str
    ensures chars { chars result.now ≡ places.group_name config.now.groups group }
    ensures bytes { result.now ≡ encode_utf8_all (places.group_name config.now.groups group) }
{
    match group_at(config, group) {
        Some(name) => name.as_str(),
        None => "",
    }
}

/// The group at a place.
fn group_at(config: &Config, group: u32) -> Option<&Txt>
    ensures { option_copied result ≡ slice_get config.now.groups group }
{
    config.groups.inner().get(group as usize)
}
