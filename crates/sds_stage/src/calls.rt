//! The calls of a node of a rehearsal: each goes as that of the node of a world for which it stands.
//! Out of memory ends a rehearsal, so it is apart from the answers.
ghost use Rattle.std.specs.Prelude.{◌≡◌, IfOk, IsTrue, ◌&&◌};
ghost use Rattle.std.specs.List.{All, list_all};
ghost use Rattle.std.specs.Str.{chars};
ghost use Rattle.sds_value.specs.Names.{is_name_text};
ghost use Rattle.sds_outside.specs.MemKeeping.{IsKeptOpen, kept_told};
ghost use Rattle.sds_types.specs.declared.message.Reply.{Reply};
ghost use Rattle.sds_history.specs.history.SoundParts.{is_token};
ghost use Rattle.sds_history.specs.world.Answering.{take_at};
ghost use Rattle.sds_history.specs.world.Delivering.{confirm_at};
ghost use Rattle.sds_history.specs.world.Events.{route_at, write_at};
ghost use Rattle.sds_history.specs.world.Registering.{join_at, open_at, register_at};
ghost use Rattle.sds_history.specs.world.Worlds.{Node as Stood, me_of};
ghost use Rattle.sds_nodelaws.specs.Asked.{are_spelt, is_ack, is_named_peer, is_noise};
ghost use Rattle.sds_imagelaws.specs.Widths.{IsHeldAck};
ghost use Rattle.sds_node.specs.Meaning.{IsNode, has};
ghost use Rattle.sds_stage.specs.Standing.{Goes};

use crate::memory::{
    unless_acking_lacks, unless_lacking, unless_registering_lacks, unless_writing_lacks,
};
use sds_base::{NoMemory, Txt};
use sds_node::Node;
use sds_outside::MemKeeper;
use sds_types::{Ack, AckRefusal, NodeFault, RegRefusal, TxRow, WriteRefusal, Written};
use sds_value::Peer;

/// The registration of a node is opened, and what is answered.
pub(crate) fn open_at(
    node: &mut Node<MemKeeper>,
    group: &str,
    external: &str,
    noise: [u8; 16],
) -> Result<Result<(), RegRefusal>, NoMemory>
    requires node { IsNode IsKeptOpen kept_told node.old }
    requires asked { IsTrue (is_name_text (chars group.now) && (is_name_text (chars external.now) && is_noise noise)) }
    ensures node { IsNode IsKeptOpen kept_told node.new }
    ensures goes { IfOk result (λ answer. Goes node.old node.new answer
        (λ config stood. open_at config noise stood (chars group.now) (chars external.now))) }
{
    unless_registering_lacks(node.open_registration(group, external, noise))
}

/// A node is asked to register another, and what it answers: the token, or its refusal.
pub(crate) fn register_at(
    node: &mut Node<MemKeeper>,
    asks: &Peer,
) -> Result<Result<Txt, RegRefusal>, NoMemory>
    requires node { IsNode IsKeptOpen kept_told node.old }
    requires asked { IsTrue (is_named_peer asks.now) }
    ensures node { IsNode IsKeptOpen kept_told node.new }
    ensures goes { IfOk result (λ answer. (other : Stood) → me_of other ≡ asks.now
        → Goes node.old node.new answer (λ config stood. register_at config stood other)) }
    ensures token { IfOk result (λ answer. IfOk answer (λ token. IsTrue (is_token token))) }
    ensures still { (has node.new).me ≡ (has node.old).me }
{
    unless_registering_lacks(node.register(asks))
}

/// A node joins another with the token that it was given, and what it answers.
pub(crate) fn join_at(
    node: &mut Node<MemKeeper>,
    other: &Peer,
    token: &str,
) -> Result<Result<(), RegRefusal>, NoMemory>
    requires node { IsNode IsKeptOpen kept_told node.old }
    requires asked { IsTrue (is_named_peer other.now && is_token (chars token.now)) }
    ensures node { IsNode IsKeptOpen kept_told node.new }
    ensures goes { IfOk result (λ answer. (at : Stood) → me_of at ≡ other.now
        → Goes node.old node.new answer (λ config stood. join_at config stood at (chars token.now))) }
{
    unless_registering_lacks(node.join(other, token))
}

/// A node confirms a peer, and what it answers.
pub(crate) fn confirm_at(
    node: &mut Node<MemKeeper>,
    peer: &str,
) -> Result<Result<(), NodeFault>, NoMemory>
    requires { IsNode IsKeptOpen kept_told node.old }
    ensures node { IsNode IsKeptOpen kept_told node.new }
    ensures goes { IfOk result (λ answer. Goes node.old node.new answer
        (λ config stood. confirm_at config stood (chars peer.now))) }
{
    unless_lacking(node.confirm(peer))
}

/// A node takes the acks of a peer, and what it answers.
pub(crate) fn take_at(
    node: &mut Node<MemKeeper>,
    from: &str,
    acks: &[Ack],
) -> Result<Result<u64, AckRefusal>, NoMemory>
    requires node { IsNode IsKeptOpen kept_told node.old }
    requires asked { IsTrue (list_all is_ack acks.now) }
    requires held { All IsHeldAck acks.now }
    ensures node { IsNode IsKeptOpen kept_told node.new }
    ensures goes { IfOk result (λ answer. (reply : Reply) → reply.from ≡ chars from.now
        → reply.acks ≡ acks.now
        → Goes node.old node.new answer (λ config stood. take_at config stood reply)) }
{
    unless_acking_lacks(node.take_acks(from, acks))
}

/// An own write at a node, and what it answers.
pub(crate) fn write_at(
    node: &mut Node<MemKeeper>,
    writer: &str,
    number: u64,
    rows: &[TxRow],
) -> Result<Result<Written, WriteRefusal>, NoMemory>
    requires node { IsNode IsKeptOpen kept_told node.old }
    requires asked { IsTrue (is_name_text (chars writer.now) && are_spelt rows.now) }
    ensures node { IsNode IsKeptOpen kept_told node.new }
    ensures goes { IfOk result (λ answer. Goes node.old node.new answer
        (λ config stood. write_at config stood (chars writer.now) number rows.now)) }
{
    unless_writing_lacks(node.write(writer, number, rows))
}

/// A routing run at a node, and what it answers.
pub(crate) fn route_at(node: &mut Node<MemKeeper>) -> Result<Result<u64, NodeFault>, NoMemory>
    requires { IsNode IsKeptOpen kept_told node.old }
    ensures node { IsNode IsKeptOpen kept_told node.new }
    ensures goes { IfOk result (λ answer. Goes node.old node.new answer route_at) }
{
    unless_lacking(node.route())
}
