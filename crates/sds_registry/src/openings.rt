//! Openings that are given to nodes and closed.
ghost use Rattle.std.specs.Prelude.{◌≡◌, map};
ghost use Rattle.std.specs.List.{position};
ghost use Rattle.std.specs.Str.{chars};
ghost use Rattle.sds_history.specs.history.Openings.{closed_for, given_to};
ghost use Rattle.sds_history.specs.history.Openings.{is_opening_of, opening_key};
ghost use Rattle.sds_history.specs.history.Registrations as registrations;
ghost use Rattle.sds_history.specs.history.SoundParts.{AscendBy};
ghost use Rattle.sds_image.specs.Meaning.{meaning_of};

use crate::finding::is_opening;
use crate::stages::{closed_stage, is_given_to};
use sds_base::Txt;
use sds_image::State;
use sds_types::{Opening, Stage};
use sds_value::Peer;
use std::mem;

/// Gives the opening of a peer's group and external id to it, where one stands. `node` is a copy of
/// the peer's id, so that no memory is taken.
pub fn give_opening(openings: &mut Vec<Opening>, peer: &Peer, node: Txt)
    requires order { AscendBy opening_key openings.old.items }
    requires node { node ≡ peer.now.id }
    ensures items { openings.new.items ≡ map (given_to peer.now) openings.old.items }
    ensures order { AscendBy opening_key openings.new.items }
{
    if let Some(at) = place_of_opening(openings, peer) {
        openings[at].stage = Stage::Given(node);
    }
}

/// The place of the opening of a peer's group and external id.
fn place_of_opening(openings: &[Opening], peer: &Peer) -> Option<usize>
    ensures { result ≡ position (is_opening_of peer.now) openings.now }
{
    openings.iter().position(|opening| is_opening(
        opening,
        peer.group.as_str(),
        peer.external.as_str(),
    ))
}

/// Closes the openings that were given to a peer, which has shown its token. It takes no memory.
pub fn close_openings(openings: &mut Vec<Opening>, peer: &str)
    ensures { openings.new.items ≡ map (closed_for (chars peer.now)) openings.old.items }
{
    for opening in openings.iter_mut() {
        close_for(opening, peer);
    }
}

/// Closes an opening where it was given to a peer.
fn close_for(opening: &mut Opening, peer: &str)
    ensures { opening.new ≡ closed_for (chars peer.now) opening.old }
{
    let stage = mem::replace(&mut opening.stage, Stage::Waiting);
    opening.stage = closed_stage(stage, peer);
}

/// Whether an opening was given to a peer and is not closed yet.
pub fn is_open_for(state: &State, peer: &str) -> bool
    ensures { result ≡ registrations.is_open_for (meaning_of state.now) (chars peer.now) }
{
    state
        .openings
        .inner()
        .iter()
        .any(|opening| is_given_to(&opening.stage, peer))
}
