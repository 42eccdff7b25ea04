//! The calls of a node that make acts: each settles the node, and then makes at most one act.
ghost use Rattle.std.specs.Prelude.{◌<◌, ◌^◌, length};
ghost use Rattle.std.specs.List.{All};
ghost use Rattle.std.specs.Str.{chars};
ghost use Rattle.sds_history.specs.history.Acks.{acks_act, acks_answer};
ghost use Rattle.sds_history.specs.history.Joins.{join_act, join_answer};
ghost use Rattle.sds_history.specs.history.Loads.{load_act, load_answer};
ghost use Rattle.sds_history.specs.history.Registrations.{confirm_act, confirm_answer};
ghost use Rattle.sds_history.specs.history.Registrations.{open_act, open_answer};
ghost use Rattle.sds_history.specs.history.Registrations.{register_act, register_answer};
ghost use Rattle.sds_history.specs.history.Routes.{route_act, route_answer};
ghost use Rattle.sds_history.specs.history.Writes.{write_act, write_answer};
ghost use Rattle.sds_nodelaws.specs.Asked.{IsAsked};
ghost use Rattle.sds_nodelaws.specs.Calls.Call.{Confirm, Join, Load, Open, Register, Route, TakeAcks, Write};
ghost use Rattle.sds_imagelaws.specs.Widths.{IsHeldAck, IsHeldBody};
ghost use Rattle.sds_load.specs.Bodies.{rows_in};
ghost use Rattle.sds_commit.specs.Ends.{HasFailed, Lasts};
ghost use Rattle.sds_node.specs.Going.{Goes, IsStill};

use crate::Node;
use crate::failing::{
    acking_failed, has_failed, loading_failed, registering_failed, writing_failed,
};
use sds_acts::{confirm, join, open, register, route, take_acks};
use sds_base::Txt;
use sds_outside::Keeper;
use sds_runs::{load, write};
use sds_types::{
    Ack, AckRefusal, LoadAnswer, NodeFault, PeerRefusal, Prepared, RegRefusal, TxRow, WriteRefusal,
    Written,
};
use sds_value::Peer;

impl<K: Keeper> Node<K> {
    ghost use Rattle.sds_node.specs.Meaning.{IsNode, has};

    /// Opens the registration of a node of a group and an external id, with a token of 16 random
    /// bytes (the SymmetricDS guide's chapter on registration).
    ///
    /// Refusals, in this order: no link joins the two groups; the pair was opened before.
    pub fn open_registration(
        &mut self,
        group: &str,
        external: &str,
        noise: [u8; 16],
    ) -> Result<(), RegRefusal>
        requires node { IsNode K.is_open K.keeping self.old }
        requires asked { IsAsked self.old.config (has self.old) (Open (chars group.now) (chars external.now) noise) }
        ensures node { IsNode K.is_open K.keeping self.new }
        ensures goes { Goes K.keeping K.damage self.old self.new
            (λ state. open_act self.old.config state (chars group.now) (chars external.now) noise) RegRefusal.Fault
            (λ state. open_answer self.old.config state (chars group.now) (chars external.now) noise) result }
        ensures still { IsStill self.old self.new }
        ensures lasts { Lasts (K.damage self.old.keeper) (K.damage self.new.keeper)
            (K.faults self.old.keeper) (K.faults self.new.keeper)
            (HasFailed RegRefusal.Fault result) }
    {
        if let Err(fault) = self.settle() {
            return Err(RegRefusal::Fault(fault));
        }
        let result = open(
            self.alloc,
            &self.config,
            &mut self.state,
            &mut self.keeper,
            group,
            external,
            noise,
        );
        self.sure = !registering_failed(&result);
        result
    }

    /// Keeps a node that asks as a child, where its group and external id are open, and gives its
    /// token. It gets the same answer when it asks again, until it is confirmed.
    ///
    /// Refusals, in this order: the pair isn't open, or no longer; the id is taken; 1,000 peers are
    /// kept.
    pub fn register(&mut self, asks: &Peer) -> Result<Txt, RegRefusal>
        requires node { IsNode K.is_open K.keeping self.old }
        requires asked { IsAsked self.old.config (has self.old) (Register asks.now) }
        ensures node { IsNode K.is_open K.keeping self.new }
        ensures goes { Goes K.keeping K.damage self.old self.new
            (λ state. register_act self.old.config state asks.now) RegRefusal.Fault
            (λ state. register_answer self.old.config state asks.now) result }
        ensures still { IsStill self.old self.new }
        ensures lasts { Lasts (K.damage self.old.keeper) (K.damage self.new.keeper)
            (K.faults self.old.keeper) (K.faults self.new.keeper)
            (HasFailed RegRefusal.Fault result) }
    {
        if let Err(fault) = self.settle() {
            return Err(RegRefusal::Fault(fault));
        }
        let result = register(
            self.alloc,
            &self.config,
            &mut self.state,
            &mut self.keeper,
            asks,
        );
        self.sure = !registering_failed(&result);
        result
    }

    /// Keeps a node at which this one registered, with the token that it gave.
    ///
    /// Refusals, in this order: no link joins the two groups; the id is taken, by this node or by a
    /// peer with other values; 1,000 peers are kept.
    pub fn join(&mut self, other: &Peer, token: &str) -> Result<(), RegRefusal>
        requires node { IsNode K.is_open K.keeping self.old }
        requires asked { IsAsked self.old.config (has self.old) (Join other.now (chars token.now)) }
        ensures node { IsNode K.is_open K.keeping self.new }
        ensures goes { Goes K.keeping K.damage self.old self.new
            (λ state. join_act self.old.config state other.now (chars token.now)) RegRefusal.Fault
            (λ state. join_answer self.old.config state other.now (chars token.now)) result }
        ensures still { IsStill self.old self.new }
        ensures lasts { Lasts (K.damage self.old.keeper) (K.damage self.new.keeper)
            (K.faults self.old.keeper) (K.faults self.new.keeper)
            (HasFailed RegRefusal.Fault result) }
    {
        if let Err(fault) = self.settle() {
            return Err(RegRefusal::Fault(fault));
        }
        let result = join(
            self.alloc,
            &self.config,
            &mut self.state,
            &mut self.keeper,
            other,
            token,
        );
        self.sure = !registering_failed(&result);
        result
    }

    /// Closes the registration of a peer, which has shown its token. Where none is open nothing is
    /// done.
    pub fn confirm(&mut self, peer: &str) -> Result<(), NodeFault>
        requires node { IsNode K.is_open K.keeping self.old }
        requires asked { IsAsked self.old.config (has self.old) (Confirm (chars peer.now)) }
        ensures node { IsNode K.is_open K.keeping self.new }
        ensures goes { Goes K.keeping K.damage self.old self.new
            (λ state. confirm_act self.old.config state (chars peer.now)) (λ fault. fault)
            (λ state. confirm_answer self.old.config state (chars peer.now)) result }
        ensures still { IsStill self.old self.new }
        ensures lasts { Lasts (K.damage self.old.keeper) (K.damage self.new.keeper)
            (K.faults self.old.keeper) (K.faults self.new.keeper)
            (HasFailed (λ fault. fault) result) }
    {
        if let Err(fault) = self.settle() {
            return Err(fault);
        }
        let result = confirm(
            self.alloc,
            &self.config,
            &mut self.state,
            &mut self.keeper,
            peer,
        );
        self.sure = !has_failed(&result);
        result
    }

    /// Makes a writer's numbered write, and captures its changes. The number is to be one above the
    /// writer's last, the first being 1; the last number again is answered as before, and nothing is
    /// done. A refused write doesn't use its number.
    ///
    /// Refusals, in this order: more than 10,000 rows; a number that is 0 or below the last; one
    /// above the next; the first row that breaks a rule.
    pub fn write(
        &mut self,
        writer: &str,
        number: u64,
        tx: &[TxRow],
    ) -> Result<Written, WriteRefusal>
        requires node { IsNode K.is_open K.keeping self.old }
        requires asked { IsAsked self.old.config (has self.old) (Write (chars writer.now) number tx.now) }
        ensures node { IsNode K.is_open K.keeping self.new }
        ensures goes { Goes K.keeping K.damage self.old self.new
            (λ state. write_act self.old.config state (chars writer.now) number tx.now) WriteRefusal.Fault
            (λ state. write_answer self.old.config state (chars writer.now) number tx.now) result }
        ensures still { IsStill self.old self.new }
        ensures lasts { Lasts (K.damage self.old.keeper) (K.damage self.new.keeper)
            (K.faults self.old.keeper) (K.faults self.new.keeper)
            (HasFailed WriteRefusal.Fault result) }
    {
        if let Err(fault) = self.settle() {
            return Err(WriteRefusal::Fault(fault));
        }
        let result = write(
            self.alloc,
            &self.config,
            &mut self.state,
            &mut self.keeper,
            writer,
            number,
            tx,
        );
        self.sure = !writing_failed(&result);
        result
    }

    /// Cuts the changes since the last routing run into batches for the peers that the routers name,
    /// and tells how many it made (the SymmetricDS guide's chapter on routers). Without such changes
    /// nothing is done.
    pub fn route(&mut self) -> Result<u64, NodeFault>
        requires node { IsNode K.is_open K.keeping self.old }
        requires asked { IsAsked self.old.config (has self.old) Route }
        ensures node { IsNode K.is_open K.keeping self.new }
        ensures goes { Goes K.keeping K.damage self.old self.new
            (λ state. route_act self.old.config state) (λ fault. fault)
            (λ state. route_answer self.old.config state) result }
        ensures still { IsStill self.old self.new }
        ensures lasts { Lasts (K.damage self.old.keeper) (K.damage self.new.keeper)
            (K.faults self.old.keeper) (K.faults self.new.keeper)
            (HasFailed (λ fault. fault) result) }
    {
        if let Err(fault) = self.settle() {
            return Err(fault);
        }
        let result = route(self.alloc, &self.config, &mut self.state, &mut self.keeper);
        self.sure = !has_failed(&result);
        result
    }

    /// Loads a batch from a peer, once: a batch that isn't above the highest that was loaded of its
    /// lane is answered `Again`. While a batch of a lane is in error, later ones are held. The row
    /// and the rule of an error are kept.
    ///
    /// Refused where the node has no such peer, or has it in another group than the batch says.
    pub fn load(&mut self, from: &str, batch: &Prepared) -> Result<LoadAnswer, PeerRefusal>
        requires node { IsNode K.is_open K.keeping self.old }
        requires asked { IsAsked self.old.config (has self.old) (Load (chars from.now) batch.now) }
        requires few { length (rows_in batch.now.body) < 2 ^ 32 }
        requires held { IsHeldBody batch.now.body }
        ensures node { IsNode K.is_open K.keeping self.new }
        ensures goes { Goes K.keeping K.damage self.old self.new
            (λ state. load_act self.old.config state (chars from.now) batch.now) PeerRefusal.Fault
            (λ state. load_answer self.old.config state (chars from.now) batch.now) result }
        ensures still { IsStill self.old self.new }
        ensures lasts { Lasts (K.damage self.old.keeper) (K.damage self.new.keeper)
            (K.faults self.old.keeper) (K.faults self.new.keeper)
            (HasFailed PeerRefusal.Fault result) }
    {
        if let Err(fault) = self.settle() {
            return Err(PeerRefusal::Fault(fault));
        }
        let result = load(
            self.alloc,
            &self.config,
            &mut self.state,
            &mut self.keeper,
            from,
            batch,
        );
        self.sure = !loading_failed(&result);
        result
    }

    /// Takes what a peer says of batches that were sent to it, and tells how many have another status,
    /// row or rule since.
    ///
    /// Refusals, in this order: no such peer; the first number that is no batch to it, and then
    /// nothing is done.
    pub fn take_acks(&mut self, from: &str, acks: &[Ack]) -> Result<u64, AckRefusal>
        requires node { IsNode K.is_open K.keeping self.old }
        requires asked { IsAsked self.old.config (has self.old) (TakeAcks (chars from.now) acks.now) }
        requires held { All IsHeldAck acks.now }
        ensures node { IsNode K.is_open K.keeping self.new }
        ensures goes { Goes K.keeping K.damage self.old self.new
            (λ state. acks_act self.old.config state (chars from.now) acks.now) AckRefusal.Fault
            (λ state. acks_answer self.old.config state (chars from.now) acks.now) result }
        ensures still { IsStill self.old self.new }
        ensures lasts { Lasts (K.damage self.old.keeper) (K.damage self.new.keeper)
            (K.faults self.old.keeper) (K.faults self.new.keeper)
            (HasFailed AckRefusal.Fault result) }
    {
        if let Err(fault) = self.settle() {
            return Err(AckRefusal::Fault(fault));
        }
        let result = take_acks(
            self.alloc,
            &self.config,
            &mut self.state,
            &mut self.keeper,
            from,
            acks,
        );
        self.sure = !acking_failed(&result);
        result
    }
}
