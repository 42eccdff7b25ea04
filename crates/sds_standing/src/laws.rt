//! Laws of nodes that stand for nodes of a world.
ghost use Rattle.std.specs.Prelude.{ℕ, List};
ghost use Rattle.sds_value.specs.declared.row.Peer.{Peer};
ghost use Rattle.sds_types.specs.declared.ack.Ack.{Ack};
ghost use Rattle.sds_types.specs.declared.prepared.Prepared.{Prepared};
ghost use Rattle.sds_types.specs.declared.tx_row.TxRow.{TxRow};
ghost use Rattle.sds_history.specs.history.Acks.{acks_answer};
ghost use Rattle.sds_history.specs.history.Joins.{join_answer};
ghost use Rattle.sds_history.specs.history.Loads.{load_answer};
ghost use Rattle.sds_history.specs.history.Registrations.{confirm_answer, open_answer, register_answer};
ghost use Rattle.sds_history.specs.history.Routes.{route_answer};
ghost use Rattle.sds_history.specs.history.Writes.{write_answer};
ghost use Rattle.sds_nodelaws.specs.Calls.Call.{Confirm, Join, Load, Open, Register, Route, TakeAcks, Write};
ghost use Rattle.sds_standing.specs.Standing.{BeginGoes, CallGoes, OpenGoes, SettleGoes};

use sds_outside::Keeper;
use sds_types::{AckRefusal, PeerRefusal, RegRefusal, WriteRefusal};

/// A node over a keeper that tells what it keeps and which of its commits will fail goes call by
/// call as the node of a world: it gives the same answer, and stands for the node that the world
/// then has, whether the call made an act, met a failing commit that stood or didn't, or found the
/// node unsure. Out of memory alone is free.
pub fn calls_go<K: Keeper>()
    ensures open { (group external noise : List ℕ)
        → CallGoes K.is_open K.keeping K.damage RegRefusal.Fault (Open group external noise)
        (λ config state. open_answer config state group external noise) }
    ensures register { (asks : Peer)
        → CallGoes K.is_open K.keeping K.damage RegRefusal.Fault (Register asks)
        (λ config state. register_answer config state asks) }
    ensures join { (other : Peer) (token : List ℕ)
        → CallGoes K.is_open K.keeping K.damage RegRefusal.Fault (Join other token)
        (λ config state. join_answer config state other token) }
    ensures confirm { (peer : List ℕ)
        → CallGoes K.is_open K.keeping K.damage (λ fault. fault) (Confirm peer)
        (λ config state. confirm_answer config state peer) }
    ensures write { (writer : List ℕ) (number : ℕ) (rows : List TxRow)
        → CallGoes K.is_open K.keeping K.damage WriteRefusal.Fault (Write writer number rows)
        (λ config state. write_answer config state writer number rows) }
    ensures route { CallGoes K.is_open K.keeping K.damage (λ fault. fault) Route
        (λ config state. route_answer config state) }
    ensures load { (from : List ℕ) (batch : Prepared)
        → CallGoes K.is_open K.keeping K.damage PeerRefusal.Fault (Load from batch)
        (λ config state. load_answer config state from batch) }
    ensures take_acks { (from : List ℕ) (acks : List Ack)
        → CallGoes K.is_open K.keeping K.damage AckRefusal.Fault (TakeAcks from acks)
        (λ config state. acks_answer config state from acks) }
{}

/// A node that stands for one of a world and is settled goes on standing for it, and is sure: its
/// records are always read. Out of memory alone is free.
pub fn settles_go<K: Keeper>()
    ensures { SettleGoes K.is_open K.keeping K.damage }
{}

/// A keeper that keeps what a node of a world has, be it after a crash, is opened as a node that
/// stands for it. Out of memory alone is free.
pub fn opens_go<K: Keeper>()
    ensures { OpenGoes K.is_open K.keeping K.damage }
{}

/// A node that is created of an empty keeper that won't fail stands for a new node of a world.
pub fn begins_go<K: Keeper>()
    ensures { BeginGoes K.is_open K.keeping K.damage }
{}
