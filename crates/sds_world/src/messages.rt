//! Messages and replies of a rehearsal: sent, delivered, answered and shown.
ghost use Rattle.std.specs.Prelude.{◌≡◌, ◌++◌, ◌-◌, [], IfOk, Ok, OnOk};
ghost use Rattle.std.specs.Str.{chars};
ghost use Rattle.sds_types.specs.declared.world_event.WorldEvent.TheVariants as event;
ghost use Rattle.sds_history.specs.world.Events.{happened};
ghost use Rattle.sds_history.specs.world.Worlds.{World};
ghost use Rattle.sds_screen.specs.Lines as lines;
ghost use Rattle.sds_world.specs.Messages.{reply_from};

use crate::Rehearsal;
use crate::rehearsal::SentMessage;
use sds_base::{Bytes, List, NoMemory, Twin, Txt};
use sds_told::{put_answering, put_delivering, put_no_pull, put_no_push, put_sending};
use sds_types::{Ack, Action, Reply, SyncRefusal};
use std::alloc::Global;

impl Rehearsal {
    ghost use Rattle.sds_world.specs.Playing.{IsRehearsal, Plays, PlaysWorld};
    ghost use Rattle.sds_world.specs.Messages.{Exchanges, message_next, number_next, place_next, replies_more, reply_answer, reply_next, sent_answer, sent_more};

    /// A node sends a message to another, of these channels or of all where none is named. The
    /// number of the message where it has a batch.
    pub(crate) fn send(
        &mut self,
        from: &str,
        to: &str,
        channels: &[u32],
        out: &mut Vec<u8>,
    ) -> Result<Option<u64>, NoMemory>
        requires rehearsal { IsRehearsal self.old }
        ensures rehearsal { OnOk result (IsRehearsal self.new) }
        ensures plays { OnOk result (Plays self.old self.new out.old.items out.new.items
            (event.Send (chars from.now) (chars to.now) channels.now)) }
        ensures next { IfOk result (λ next. (world : World) → PlaysWorld self.old world
            → next ≡ message_next (happened self.old.stage.config self.old.stage.noise world
            (event.Send (chars from.now) (chars to.now) channels.now)).told) }
    {
        let mut text = Vec::new(*out.allocator());
        let Some(answer) = self.stage.write_message(from, to, channels, &mut text)? else {
            return Ok(None);
        };
        self.keep_message(from, to, answer, text, out)
    }

    /// Keeps a message that was written, with so many batches, and writes the line of it.
    fn keep_message(
        &mut self,
        from: &str,
        to: &str,
        answer: Result<u64, SyncRefusal>,
        text: Vec<u8>,
        out: &mut Vec<u8>,
    ) -> Result<Option<u64>, NoMemory>
        ensures stage { self.new.stage ≡ self.old.stage }
        ensures replies { self.new.replies.items ≡ self.old.replies.items }
        ensures messages { OnOk result (self.new.messages.items ≡ sent_more self.old.messages.items
            (chars from.now) (chars to.now) text.items answer) }
        ensures writes { OnOk result (out.new.items ≡ out.old.items ++ lines.send_line
            (chars from.now) (chars to.now) (sent_answer self.old.messages.items answer)) }
        ensures next { IfOk result (λ next. next ≡ number_next self.old.messages.items answer) }
    {
        let alloc = *out.allocator();
        match answer {
            Ok(count) => {
                let number = self.messages.len() as u64 + 1;
                self.messages.push(SentMessage {
                    from: Txt::copied(alloc, from)?,
                    to: Txt::copied(alloc, to)?,
                    text: Bytes::of(text),
                })?;
                put_sending(from, to, &Ok((number, count)), out)?;
                if count == 0 {
                    return Ok(None);
                }
                Ok(Some(number))
            }
            Err(refusal) => {
                put_sending(from, to, &Err(refusal), out)?;
                Ok(None)
            }
        }
    }

    /// The message of this number is delivered, its batches in the order of these channels, and the
    /// others after them. The number of the reply, where it is made.
    pub(crate) fn deliver(
        &mut self,
        number: u64,
        mentions: &[u32],
        out: &mut Vec<u8>,
    ) -> Result<Option<u64>, NoMemory>
        requires rehearsal { IsRehearsal self.old }
        ensures rehearsal { OnOk result (IsRehearsal self.new) }
        ensures plays { OnOk result (Plays self.old self.new out.old.items out.new.items
            (event.Deliver number mentions.now)) }
        ensures next { IfOk result (λ next. (world : World) → PlaysWorld self.old world
            → next ≡ reply_next (happened self.old.stage.config self.old.stage.noise world
            (event.Deliver number mentions.now)).told) }
    {
        let alloc = *out.allocator();
        let Some(message) = self.messages.get(place_of(number)) else {
            return Ok(None);
        };
        let from = message.from.as_str();
        let to = message.to.as_str();
        let text = message.text.inner();
        let Some(answer) = self.stage.deliver(from, to, text, mentions)? else {
            return Ok(None);
        };
        let made = made_reply(alloc, &message.to, &message.from, answer)?;
        self.keep_reply(number, made, out)
    }

    /// Keeps a reply to the message of this number, and writes the line of the delivery.
    fn keep_reply(
        &mut self,
        number: u64,
        made: Result<Reply, SyncRefusal>,
        out: &mut Vec<u8>,
    ) -> Result<Option<u64>, NoMemory>
        ensures stage { self.new.stage ≡ self.old.stage }
        ensures messages { self.new.messages.items ≡ self.old.messages.items }
        ensures replies { OnOk result (self.new.replies.items
            ≡ replies_more self.old.replies.items made) }
        ensures writes { OnOk result (out.new.items ≡ out.old.items ++ lines.delivering_line number
            (reply_answer self.old.replies.items made)) }
        ensures next { IfOk result (λ next. next ≡ place_next self.old.replies.items made) }
    {
        match made {
            Ok(reply) => {
                let place = self.replies.len() as u64 + 1;
                let reply = put_reply(number, place, reply, out)?;
                self.replies.push(reply)?;
                Ok(Some(place))
            }
            Err(refusal) => {
                put_delivering(number, &Err(refusal), out)?;
                Ok(None)
            }
        }
    }

    /// The reply of this number comes back to the node that sent its message.
    pub(crate) fn answer(&mut self, number: u64, out: &mut Vec<u8>) -> Result<(), NoMemory>
        requires rehearsal { IsRehearsal self.old }
        ensures rehearsal { OnOk result (IsRehearsal self.new) }
        ensures plays { OnOk result (Plays self.old self.new out.old.items out.new.items
            (event.Answer number)) }
    {
        let Some(reply) = self.replies.get(place_of(number)) else {
            return Ok(());
        };
        let Some(answer) = self.stage.answer(reply)? else {
            return Ok(());
        };
        put_answering(number, &answer, out)
    }

    /// A node pushes to another: it sends a message, which is delivered and answered where it has a
    /// batch.
    pub(crate) fn push(&mut self, from: &str, to: &str, out: &mut Vec<u8>) -> Result<(), NoMemory>
        requires rehearsal { IsRehearsal self.old }
        ensures rehearsal { OnOk result (IsRehearsal self.new) }
        ensures plays { OnOk result (Plays self.old self.new out.old.items out.new.items
            (event.Push (chars from.now) (chars to.now))) }
    {
        match self.stage.may_exchange(from, to, Action::P)? {
            Some(true) => self.exchange(from, to, out),
            Some(false) => put_no_push(from, to, out),
            None => Ok(()),
        }
    }

    /// A node pulls from another: that one sends a message, which is delivered and answered where it
    /// has a batch.
    pub(crate) fn pull(&mut self, to: &str, from: &str, out: &mut Vec<u8>) -> Result<(), NoMemory>
        requires rehearsal { IsRehearsal self.old }
        ensures rehearsal { OnOk result (IsRehearsal self.new) }
        ensures plays { OnOk result (Plays self.old self.new out.old.items out.new.items
            (event.Pull (chars to.now) (chars from.now))) }
    {
        match self.stage.may_exchange(from, to, Action::W)? {
            Some(true) => self.exchange(from, to, out),
            Some(false) => put_no_pull(to, from, out),
            None => Ok(()),
        }
    }

    /// A message is sent, and delivered and answered as far as it goes.
    fn exchange(&mut self, from: &str, to: &str, out: &mut Vec<u8>) -> Result<(), NoMemory>
        requires rehearsal { IsRehearsal self.old }
        ensures rehearsal { OnOk result (IsRehearsal self.new) }
        ensures exchanges { OnOk result (Exchanges self.old self.new out.old.items out.new.items
            (chars from.now) (chars to.now)) }
    {
        let Some(message) = self.send(from, to, &[], out)? else {
            return Ok(());
        };
        let Some(reply) = self.deliver(message, &[], out)? else {
            return Ok(());
        };
        self.answer(reply, out)
    }

    /// The bytes of the message of this number are shown.
    pub(crate) fn wire(&self, number: u64, out: &mut Vec<u8>) -> Result<(), NoMemory>
        requires rehearsal { IsRehearsal self.now }
        ensures plays { OnOk result (Plays self.now self.now out.old.items out.new.items
            (event.Wire number)) }
    {
        let Some(message) = self.messages.get(place_of(number)) else {
            return Ok(());
        };
        if !self.stage.has_node(message.from.as_str()) {
            return Ok(());
        }
        out.extend_from_slice(message.text.inner())?;
        Ok(())
    }
}

/// The reply that a message's receiver makes to its sender.
fn made_reply(
    alloc: Global,
    from: &Txt,
    to: &Txt,
    answer: Result<List<Ack>, SyncRefusal>,
) -> Result<Result<Reply, SyncRefusal>, NoMemory>
    ensures { IfOk result (λ made. made ≡ reply_from from.now to.now answer) }
{
    match answer {
        Ok(acks) => Ok(Ok(Reply {
            from: from.twin(alloc)?,
            to: to.twin(alloc)?,
            acks,
        })),
        Err(refusal) => Ok(Err(refusal)),
    }
}

/// Writes the line of the delivery to which the reply of this number was made. The reply.
fn put_reply(message: u64, number: u64, reply: Reply, out: &mut Vec<u8>) -> Result<Reply, NoMemory>
    ensures same { IfOk result (λ same. same ≡ reply) }
    ensures writes { OnOk result (out.new.items ≡ out.old.items ++ lines.delivering_line message
        (Ok (number, reply.acks))) }
{
    let Reply { from, to, acks } = reply;
    let answer = Ok((number, acks));
    put_delivering(message, &answer, out)?;
    match answer {
        Ok((_number, acks)) => Ok(Reply { from, to, acks }),
        Err(_refusal) => Err(NoMemory),
    }
}

/// The place of what has this number, from 1.
fn place_of(number: u64) -> usize
    ensures { result ≡ number - 1 }
{
    number.saturating_sub(1) as usize
}
