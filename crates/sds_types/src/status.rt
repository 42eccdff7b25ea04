//! How the program ends.
ghost use Rattle.std.specs.Prelude.{◌≡◌};

use crate::{ConfigRefusal, CreateRefusal, DocumentCause, RegRefusal, Rule, ScenarioCause};
use sds_base::{Bytes, Txt};

/// Why an input isn't read on: a scenario or the lines of a write, or a document.
#[derive(Clone, Copy, Debug, PartialEq, Eq)]
pub enum InputCause {
    Scenario(ScenarioCause),
    Document(DocumentCause),
}

/// What could not be read.
#[derive(Clone, Copy, Debug, PartialEq, Eq)]
pub enum Unreadable {
    /// The configuration file.
    Configuration,
    /// The input.
    Input,
    /// The random bytes that tokens are made of.
    Noise,
}

/// How a command ended. The statuses and their numbers are symds' own.
#[derive(Debug, Drop)]
pub enum Status {
    /// The input was read to its end, the step was made, and all was written.
    Done,
    /// The write's row of this number, from 1, breaks this rule.
    Refused { row: u32, rule: Rule },
    /// The words aren't a command's: the place of the first word after the command that doesn't fit, from 1, or 0.
    Words { place: u32 },
    /// The configuration file is refused.
    Config(ConfigRefusal),
    /// A reading failed.
    ReadFault(Unreadable),
    /// A writing failed. What was written is a prefix of what was to be written, and the step stands.
    WriteFault,
    /// The keeper of the records failed.
    KeeperFault,
    /// The line to another node failed.
    LinkFault,
    /// Out of memory.
    NoMemory,
    /// The line of this number, from 1, is the first that the input may not have, for this cause. What stood before it was
    /// done.
    BadInput { line: u64, cause: InputCause },
    /// The kept record of this key isn't a node's.
    BadKept { key: Bytes },
    /// The other node answered with this status of HTTP; 0 where its reply isn't one, and 200 where it isn't of the form
    /// that was asked for.
    Peer { status: u16 },
    /// The write's number isn't the next one, and isn't the last one, which is this.
    Number { last: u64 },
    /// The named node is no peer, a named channel isn't in the configuration, or no link leads that way.
    NoWay,
    /// A registration is refused.
    Registration(RegRefusal),
    /// The node isn't made.
    Create(CreateRefusal),
    /// A number would pass 2^62.
    Counters,
    /// The write has more than 10,000 rows.
    TooManyRows,
    /// The pair of this place, from 1, is the first of the acks that can't be taken; 0 where the input is too long.
    BadAcks { place: u32 },
    /// The kept bytes are damaged at this offset.
    Damaged { offset: u64 },
}

impl InputCause {
    ghost use Rattle.sds_types.specs.Statuses.{cause_name_of, cause_number_of};

    /// The cause's number, as messages print it.
    pub fn number(self) -> u8
        ensures { result ≡ cause_number_of self }
    {
        match self {
            InputCause::Scenario(cause) => cause.number(),
            InputCause::Document(cause) => cause.number(),
        }
    }

    /// The cause's name, as messages print it.
    pub fn name(self) -> &'static str
        ensures { result.now ≡ cause_name_of self }
    {
        match self {
            InputCause::Scenario(cause) => cause.name(),
            InputCause::Document(cause) => cause.name(),
        }
    }
}

impl Status {
    ghost use Rattle.sds_types.specs.Statuses.{name_of, number_of};

    /// The status's number, with which the process ends.
    pub fn number(&self) -> u8
        ensures { result ≡ number_of self.now }
    {
        match self {
            Status::Done => 0,
            Status::Refused { .. } => 1,
            Status::Words { .. } => 2,
            Status::Config(_) => 3,
            Status::ReadFault(_) => 4,
            Status::WriteFault => 5,
            Status::KeeperFault => 6,
            Status::LinkFault => 7,
            Status::NoMemory => 8,
            Status::BadInput { .. } => 9,
            Status::BadKept { .. } => 10,
            Status::Peer { .. } => 11,
            Status::Number { .. } => 12,
            Status::NoWay => 13,
            Status::Registration(_) => 14,
            Status::Create(_) => 15,
            Status::Counters => 16,
            Status::TooManyRows => 17,
            Status::BadAcks { .. } => 18,
            Status::Damaged { .. } => 22,
        }
    }

    /// The status's name, as the first line on standard error prints it.
    pub fn name(&self) -> &'static str
        ensures { result.now ≡ name_of self.now }
    {
        match self {
            Status::Done => "Done",
            Status::Refused { .. } => "Refused",
            Status::Words { .. } => "Words",
            Status::Config(_) => "Config",
            Status::ReadFault(_) => "ReadFault",
            Status::WriteFault => "WriteFault",
            Status::KeeperFault => "KeeperFault",
            Status::LinkFault => "LinkFault",
            Status::NoMemory => "NoMemory",
            Status::BadInput { .. } => "BadInput",
            Status::BadKept { .. } => "BadKept",
            Status::Peer { .. } => "Peer",
            Status::Number { .. } => "Number",
            Status::NoWay => "NoWay",
            Status::Registration(_) => "Registration",
            Status::Create(_) => "Create",
            Status::Counters => "Counters",
            Status::TooManyRows => "TooManyRows",
            Status::BadAcks { .. } => "BadAcks",
            Status::Damaged { .. } => "Damaged",
        }
    }
}
