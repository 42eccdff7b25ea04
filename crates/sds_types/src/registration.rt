//! Registration: what a node has opened, and why a call is refused.
ghost use Rattle.std.specs.Prelude.{◌≡◌};

use crate::NodeFault;
use sds_base::Txt;

/// How far an opened registration has come.
#[derive(Debug, Drop)]
pub enum Stage {
    /// No node has asked for it.
    Waiting,
    /// It was given to the node of this id, which gets the same answer when it asks again.
    Given(Txt),
    /// The node of this id has proved itself by the token, so nothing more is given.
    Closed(Txt),
}

/// A registration that a node has opened (the SymmetricDS guide's chapter on registration). A pair of group and external
/// id is opened at most once.
#[derive(Debug, Drop)]
pub struct Opening {
    pub group: Txt,
    pub external: Txt,
    /// 32 hexadecimal digits in lower case.
    pub token: Txt,
    pub stage: Stage,
}

/// Why a registration is refused. Nothing has changed.
#[derive(Debug, Drop)]
pub enum RegRefusal {
    /// The pair of group and external id isn't open, or no longer.
    NotOpen,
    /// No link joins the two groups.
    UnknownGroup,
    /// The pair was opened before.
    AlreadyOpen,
    /// The id is taken: by this node, by another peer, or another id was given to the pair.
    IdTaken,
    /// 1,000 peers are kept.
    TooManyNodes,
    Fault(NodeFault),
}

/// Why a node isn't made. Nothing has changed.
#[derive(Debug, Drop)]
pub enum CreateRefusal {
    /// The keeper has records.
    NotEmpty,
    /// The configuration hasn't the node's group.
    UnknownGroup,
    Fault(NodeFault),
}

impl RegRefusal {
    ghost use Rattle.sds_types.specs.Registrations.{reg_name_of, reg_number_of};

    /// The refusal's number, 1 to 5 in the order above, as screens print it, and 0 for a fault.
    pub fn number(&self) -> u8
        ensures { result ≡ reg_number_of self.now }
    {
        match self {
            RegRefusal::NotOpen => 1,
            RegRefusal::UnknownGroup => 2,
            RegRefusal::AlreadyOpen => 3,
            RegRefusal::IdTaken => 4,
            RegRefusal::TooManyNodes => 5,
            RegRefusal::Fault(_) => 0,
        }
    }

    /// The refusal's name, as messages print it.
    pub fn name(&self) -> &'static str
        ensures { result.now ≡ reg_name_of self.now }
    {
        match self {
            RegRefusal::NotOpen => "NotOpen",
            RegRefusal::UnknownGroup => "UnknownGroup",
            RegRefusal::AlreadyOpen => "AlreadyOpen",
            RegRefusal::IdTaken => "IdTaken",
            RegRefusal::TooManyNodes => "TooManyNodes",
            RegRefusal::Fault(fault) => fault.name(),
        }
    }
}

impl CreateRefusal {
    ghost use Rattle.sds_types.specs.Registrations.{create_name_of, create_number_of};

    /// The refusal's number, 1 and 2 in the order above, and 0 for a fault.
    pub fn number(&self) -> u8
        ensures { result ≡ create_number_of self.now }
    {
        match self {
            CreateRefusal::NotEmpty => 1,
            CreateRefusal::UnknownGroup => 2,
            CreateRefusal::Fault(_) => 0,
        }
    }

    /// The refusal's name, as messages print it.
    pub fn name(&self) -> &'static str
        ensures { result.now ≡ create_name_of self.now }
    {
        match self {
            CreateRefusal::NotEmpty => "NotEmpty",
            CreateRefusal::UnknownGroup => "UnknownGroup",
            CreateRefusal::Fault(fault) => fault.name(),
        }
    }
}
