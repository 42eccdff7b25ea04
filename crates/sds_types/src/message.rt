//! Messages and replies.
use crate::Ack;
use sds_base::{List, Txt};

/// What a message holds of a lane: batches of the sender to the receiver in one channel, by their places in the lane.
#[derive(Clone, Copy, Debug, PartialEq, Eq)]
pub struct MessagePart {
    /// The place of the channel.
    pub channel: u32,
    /// How many batches of the lane come before it.
    pub start: u64,
    /// How many batches it holds.
    pub count: u64,
}

/// A message: a part for each channel, in the order in which channels go.
#[derive(Debug, Drop)]
pub struct Message {
    pub from: Txt,
    pub to: Txt,
    pub parts: List<MessagePart>,
}

/// The reply to a message, made by its receiver and taken by its sender.
#[derive(Debug, Drop)]
pub struct Reply {
    /// The node that answers.
    pub from: Txt,
    /// The node that sent the message.
    pub to: Txt,
    /// An ack for each batch that is answered, in the message's order.
    pub acks: List<Ack>,
}
