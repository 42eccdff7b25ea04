//! What the tests of a `column` router ask of a peer.
ghost use Rattle.std.specs.Prelude.{◌≡◌, IfOk, IfSome};
ghost use Rattle.std.specs.List.{list_any};
ghost use Rattle.sds_value.specs.declared.row.Peer.{Peer};
ghost use Rattle.sds_trade.specs.rules.Fitting.{FitsRow};
ghost use Rattle.sds_trade.specs.rules.RoutedValues.{is_text};
ghost use Rattle.sds_trade.specs.rules.Routers.{test_holds};
ghost use Rattle.sds_router.specs.Asks.{is_named_by, text_of_peer};
ghost use Rattle.sds_router.specs.Questions.{is_answered, is_settled, holds_of};

use crate::ask::{Ask, PeerText};
use crate::naming::Naming;
use crate::texts::tested_text;
use sds_base::{NoMemory, Txt};
use sds_types::{Change, ColumnTest, Operand};
use sds_value::TableDef;
use std::alloc::Global;

/// What a test says once the column's text is known.
#[derive(Debug, Drop)]
pub(crate) enum Question {
    Everyone,
    Nobody,
    Asks(Ask),
}

/// Whom a `column` router names for a change: each text is printed once for all nodes.
pub(crate) fn ask_tests(
    alloc: Global,
    defs: &[TableDef],
    change: &Change,
    tests: &[ColumnTest],
) -> Result<Naming, NoMemory>
    requires new { IfSome change.now.new (FitsRow defs.now change.now.table) }
    requires old { IfSome change.now.old (FitsRow defs.now change.now.table) }
    ensures { IfOk result (λ naming. (peer : Peer) →
        is_named_by peer naming ≡ list_any (test_holds defs.now change.now peer) tests.now) }
{
    let mut asks = Vec::new(alloc);
    for test in tests {
        let question = ask_test(alloc, defs, change, test)?;
        match question {
            Question::Everyone => return Ok(Naming::everyone(alloc)),
            Question::Nobody => continue,
            Question::Asks(ask) => asks.push(ask)?,
        }
    }
    Ok(Naming::by(asks))
}

/// What a test asks for a change.
fn ask_test(
    alloc: Global,
    defs: &[TableDef],
    change: &Change,
    test: &ColumnTest,
) -> Result<Question, NoMemory>
    requires new { IfSome change.now.new (FitsRow defs.now change.now.table) }
    requires old { IfSome change.now.old (FitsRow defs.now change.now.table) }
    ensures { IfOk result (λ question. (peer : Peer) →
        is_answered peer question ≡ test_holds defs.now change.now peer test.now) }
{
    let text = tested_text(alloc, defs, change, test)?;
    Ok(question_of(test, text))
}

/// What a test asks, where the column has this text or null.
fn question_of(test: &ColumnTest, text: Option<Txt>) -> Question
    ensures { (peer : Peer) → is_answered peer result ≡ holds_of peer text test.now }
{
    match &test.operand {
        Operand::NodeId => ask_about(PeerText::Id, text, test.differs),
        Operand::ExternalId => ask_about(PeerText::External, text, test.differs),
        Operand::NodeGroupId => ask_about(PeerText::Group, text, test.differs),
        Operand::Null => settled(text.is_none(), test.differs),
        Operand::Text(wanted) => settled(is_text(&text, wanted), test.differs),
    }
}

/// Whether a text of the node is this one. Null is no text.
fn ask_about(about: PeerText, text: Option<Txt>, differs: bool) -> Question
    ensures { (peer : Peer) → is_answered peer result
        ≡ is_settled (is_text text (text_of_peer peer about)) differs }
{
    match text {
        Some(text) => Question::Asks(Ask {
            about,
            text,
            differs,
        }),
        None => settled(false, differs),
    }
}

/// A question that doesn't depend on the node.
fn settled(is_one: bool, differs: bool) -> Question
    ensures { (peer : Peer) → is_answered peer result ≡ is_settled is_one differs }
{
    if is_one != differs {
        Question::Everyone
    } else {
        Question::Nobody
    }
}

fn is_text(here: &Option<Txt>, text: &Txt) -> bool
    ensures { result ≡ is_text here.now text.now }
{
    match here {
        Some(here) => *text == *here,
        None => false,
    }
}
