//! What a node's lists decide of openings, registrations and joins.
ghost use Rattle.std.specs.Prelude.{◌≡◌, ◌&&◌, not, is_some};
ghost use Rattle.std.specs.Result.{result_map_both};
ghost use Rattle.std.specs.Str.{bytes_eq, chars};
ghost use Rattle.sds_history.specs.history.Joins.{has_peer_values, is_another};
ghost use Rattle.sds_history.specs.history.Joins.{own_join_answer, told_join};
ghost use Rattle.sds_history.specs.history.Peers.{kept_peer};
ghost use Rattle.sds_history.specs.history.Registrations.{given_answer, is_full, is_taken};
ghost use Rattle.sds_history.specs.history.Registrations.{own_open_answer, own_register_answer};
ghost use Rattle.sds_image.specs.Meaning.{meaning_of};

use crate::finding::{kept_peer, opening_of};
use crate::links::are_linked;
use crate::stages::{is_closed, may_have, went_to};
use sds_base::Txt;
use sds_image::State;
use sds_types::limits::MOST_PEERS;
use sds_types::{Config, KeptPeer, Opening, RegRefusal};
use sds_value::Peer;

/// Whether registration may be opened for a group and an external id.
///
/// `UnknownGroup` where no link joins the group and the node's, and else `AlreadyOpen` where an
/// opening of the pair stands, closed or not.
pub fn judge_opening(
    config: &Config,
    state: &State,
    group: &str,
    external: &str,
) -> Result<(), RegRefusal>
    ensures { result ≡ own_open_answer config.now (meaning_of state.now) (chars group.now)
        (chars external.now) }
{
    if !are_linked(config, group, state.me.group.as_str()) {
        return Err(RegRefusal::UnknownGroup);
    }
    if opening_of(state.openings.inner(), group, external).is_some() {
        return Err(RegRefusal::AlreadyOpen);
    }
    Ok(())
}

/// The token that a node is given which asks to be registered.
///
/// `NotOpen` where no opening of its group and external id stands, or a closed one; else `IdTaken`
/// where its id is the node's, or a peer's to which the opening wasn't given, or the opening was
/// given to another id; else `TooManyNodes` where it isn't a peer yet and no further one may be
/// kept.
pub fn judge_registration<'a>(state: &'a State, asks: &Peer) -> Result<&'a Txt, RegRefusal>
    ensures { result_map_both (λ token. token.now) (λ refusal. refusal) result
        ≡ own_register_answer (meaning_of state.now) asks.now }
{
    match opening_of(
        state.openings.inner(),
        asks.group.as_str(),
        asks.external.as_str(),
    ) {
        Some(opening) => judge_giving(state, asks, opening),
        None => Err(RegRefusal::NotOpen),
    }
}

/// The token that a node is given which asks for this opening.
fn judge_giving<'a>(state: &State, asks: &Peer, opening: &'a Opening) -> Result<&'a Txt, RegRefusal>
    ensures { result_map_both (λ token. token.now) (λ refusal. refusal) result
        ≡ given_answer (meaning_of state.now) asks.now opening.now }
{
    if is_closed(&opening.stage) {
        return Err(RegRefusal::NotOpen);
    }
    if is_taken(state, opening, asks.id.as_str()) {
        return Err(RegRefusal::IdTaken);
    }
    if lacks_room_for(state, asks.id.as_str()) {
        return Err(RegRefusal::TooManyNodes);
    }
    Ok(&opening.token)
}

/// Whether an id is the node's, or a peer's to which the opening wasn't given, or the opening was
/// given to another.
fn is_taken(state: &State, opening: &Opening, id: &str) -> bool
    ensures { result ≡ is_taken (meaning_of state.now) opening.now (chars id.now) }
{
    if is_own_id(state, id) {
        return true;
    }
    if kept_peer(state.peers.inner(), id).is_some() && !went_to(&opening.stage, id) {
        return true;
    }
    !may_have(&opening.stage, id)
}

/// Whether an id is the node's own.
fn is_own_id(state: &State, id: &str) -> bool
    ensures { result ≡ bytes_eq (chars id.now) state.now.me.id }
{
    state.me.id.is(id)
}

/// Whether an id isn't a peer's yet and no further peer may be kept.
fn lacks_room_for(state: &State, id: &str) -> bool
    ensures { result ≡ (not (is_some (kept_peer state.now.peers (chars id.now)))
        && is_full (meaning_of state.now)) }
{
    kept_peer(state.peers.inner(), id).is_none() && is_full(state)
}

/// Whether no further peer may be kept.
fn is_full(state: &State) -> bool
    ensures { result ≡ is_full (meaning_of state.now) }
{
    state.peers.inner().len() >= MOST_PEERS
}

/// Whether a node that this one registered at, or is to, may be kept as a peer with this token.
///
/// `UnknownGroup` where no link joins its group and the node's; else `IdTaken` where its id is the
/// node's, or a peer's with another group, external id or token; else `TooManyNodes` where it isn't
/// a peer yet and no further one may be kept.
pub fn judge_join(
    config: &Config,
    state: &State,
    other: &Peer,
    token: &str,
) -> Result<(), RegRefusal>
    ensures { result ≡ told_join (own_join_answer config.now (meaning_of state.now) other.now
        (chars token.now)) }
{
    if !are_linked(config, other.group.as_str(), state.me.group.as_str()) {
        return Err(RegRefusal::UnknownGroup);
    }
    if is_another(state, other, token) {
        return Err(RegRefusal::IdTaken);
    }
    if lacks_room_for(state, other.id.as_str()) {
        return Err(RegRefusal::TooManyNodes);
    }
    Ok(())
}

/// Whether an id is the node's, or a peer's with other values.
fn is_another(state: &State, other: &Peer, token: &str) -> bool
    ensures { result ≡ is_another (meaning_of state.now) other.now (chars token.now) }
{
    if is_own_id(state, other.id.as_str()) {
        return true;
    }
    match kept_peer(state.peers.inner(), other.id.as_str()) {
        Some(kept) => !has_peer_values(kept, other, token),
        None => false,
    }
}

/// Whether a peer is kept with this group and external id and this token.
fn has_peer_values(kept: &KeptPeer, other: &Peer, token: &str) -> bool
    ensures { result ≡ has_peer_values other.now (chars token.now) kept.now }
{
    kept.peer.group == other.group && kept.peer.external == other.external && kept.token.is(token)
}
