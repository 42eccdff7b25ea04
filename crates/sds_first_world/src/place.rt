ghost use Rattle.std.specs.Prelude.{◌≡◌, ◌+◌, ◌<◌, ◌==◌, IfOk, OnOk, OnErr, IsTrue, [], true};
ghost use Rattle.sds_first_world.specs.Looking.{fits, behind, completed, has_room, is_ready, order_of, opened};
ghost use Rattle.sds_first_world.specs.Words.{is_plain};

use crate::words::word;
use crate::{Line, Opening};
use sds_base::{List, NoMemory, Txt};
use sds_first_spec::WorldEvent;
use sds_types::TxRow;
use sds_value::Peer;
use std::alloc::Global;

/// How many row lines a scenario may have, over all its writes.
const MOST_ROWS: u32 = 10_000;

/// A write whose lines go on: its writer, its number and its rows so far.
#[derive(Debug, Drop)]
pub struct Draft {
    pub writer: Txt,
    pub number: u64,
    pub rows: List<TxRow>,
}

/// Where a line stands: what the lines before it leave behind.
#[derive(Debug, Drop)]
pub struct Place {
    /// How many of the four lines with which a scenario begins have stood.
    pub openings: u32,
    /// The write that is open.
    pub draft: Option<Draft>,
    /// How many row lines have stood, over all writes.
    pub rows: u32,
}

impl Place {
    ghost use Rattle.sds_first_world.specs.Looking.{start};

    /// The place of a scenario's first line.
    pub fn start() -> Place
        ensures { result ≡ start }
    {
        Place {
            openings: 0,
            draft: None,
            rows: 0,
        }
    }
}

/// Whether the line may stand at this place, where `last` is the number of its writer's last accepted write, 0
/// without one, and `settled` says whether every batch made so far is loaded.
///
/// A scenario begins with the four opening lines in their order. Behind them a
/// write may begin where none is open and its number is the writer's next, a row and an end may stand where a
/// write is open, and a routing run, a push or a show where none is, the routing run only where all batches are
/// settled. The 10,001st row of a scenario may not stand, nor any other line.
pub fn fits(place: &Place, last: u64, settled: bool, line: &Line) -> bool
    ensures fits { result ≡ fits place.now last settled line.now }
    ensures room { IsTrue result → IsTrue (has_room place.now line.now) }
{
    match line {
        Line::Opening(which) => place.openings == order_of(*which) && place.draft.is_none(),
        Line::Write { number, .. } => is_ready(place) && is_next(last, *number),
        Line::Row(_) => place.draft.is_some() && place.rows < MOST_ROWS,
        Line::End => place.draft.is_some(),
        Line::Route => is_ready(place) && settled,
        Line::Push | Line::Show { .. } => is_ready(place),
        Line::Other => false,
    }
}

/// The place of one of the four opening lines, from 0.
fn order_of(which: Opening) -> u32
    ensures { result ≡ order_of which }
{
    match which {
        Opening::Corp => 0,
        Opening::Store => 1,
        Opening::Open => 2,
        Opening::Register => 3,
    }
}

/// Whether all four opening lines have stood and no write is open.
fn is_ready(place: &Place) -> bool
    ensures { result ≡ is_ready place.now }
{
    place.openings == 4 && place.draft.is_none()
}

/// Whether a number is one above the last.
fn is_next(last: u64, number: u64) -> bool
    ensures { result ≡ (number == last + 1) }
{
    number > last && number - last == 1
}

/// Takes a line for which the place has room, as it has where the line fits: the place becomes the one behind the
/// line, and the answer is what the line makes happen, which the begin of a write and a row do not.
/// Where memory is wanting, the place stays as it was.
pub fn take_line(
    alloc: Global,
    place: &mut Place,
    line: Line,
) -> Result<Option<WorldEvent>, NoMemory>
    requires { IsTrue (has_room place.old line) }
    ensures event { IfOk result (λ event. event ≡ completed place.old line) }
    ensures place { IfOk result (λ _. place.new ≡ behind place.old line) }
    ensures err { OnErr result (place.new ≡ place.old) }
{
    match line {
        Line::Opening(which) => {
            let event = opened(alloc, which)?;
            place.openings += 1;
            Ok(Some(event))
        }
        Line::Write { writer, number } => {
            place.draft = Some(begun(alloc, writer, number));
            Ok(None)
        }
        Line::Row(row) => {
            add_row(place, row)?;
            Ok(None)
        }
        Line::End => complete(alloc, place),
        Line::Route => Ok(Some(WorldEvent::Route {
            node: word(alloc, "corp")?,
        })),
        Line::Push => Ok(Some(WorldEvent::Push {
            from: word(alloc, "corp")?,
            to: word(alloc, "s1")?,
        })),
        Line::Show { node } => Ok(Some(WorldEvent::Show { node })),
        Line::Other => Ok(None),
    }
}

/// A write without rows.
fn begun(alloc: Global, writer: Txt, number: u64) -> Draft
    ensures { result ≡ record { writer = writer; number = number; rows = [] } }
{
    Draft {
        writer,
        number,
        rows: List::new(alloc),
    }
}

/// Adds a row to the write that is open, and counts it.
fn add_row(place: &mut Place, row: TxRow) -> Result<(), NoMemory>
    requires { place.old.rows < 10000 }
    ensures ok { OnOk result (place.new ≡ behind place.old (Line.Row row)) }
    ensures err { OnErr result (place.new ≡ place.old) }
{
    if let Some(draft) = &mut place.draft {
        draft.rows.push(row)?;
    }
    place.rows += 1;
    Ok(())
}

/// Ends the write that is open.
fn complete(alloc: Global, place: &mut Place) -> Result<Option<WorldEvent>, NoMemory>
    ensures event { IfOk result (λ event. event ≡ completed place.old Line.End) }
    ensures place { IfOk result (λ _. place.new ≡ behind place.old Line.End) }
    ensures err { OnErr result (place.new ≡ place.old) }
{
    let node = word(alloc, "corp")?;
    match place.draft.take() {
        None => Ok(None),
        Some(draft) => {
            let Draft {
                writer,
                number,
                rows,
            } = draft;
            Ok(Some(WorldEvent::Write {
                node,
                writer,
                number,
                rows,
            }))
        }
    }
}

/// What one of the four opening lines makes happen.
fn opened(alloc: Global, which: Opening) -> Result<WorldEvent, NoMemory>
    ensures { IfOk result (λ event. event ≡ opened which) }
{
    match which {
        Opening::Corp => node(alloc, "corp", "corp", "corp"),
        Opening::Store => node(alloc, "s1", "store", "001"),
        Opening::Open => Ok(WorldEvent::Open {
            at: word(alloc, "corp")?,
            group: word(alloc, "store")?,
            external: word(alloc, "001")?,
        }),
        Opening::Register => Ok(WorldEvent::Register {
            asks: word(alloc, "s1")?,
            at: word(alloc, "corp")?,
        }),
    }
}

/// A node of this id, group and external id is made.
fn node(alloc: Global, id: &str, group: &str, external: &str) -> Result<WorldEvent, NoMemory>
    requires id { IsTrue (is_plain id.now) }
    requires group { IsTrue (is_plain group.now) }
    requires external { IsTrue (is_plain external.now) }
    ensures { IfOk result (λ event. event ≡ WorldEvent.Node (record { id = id.now; group = group.now; external = external.now })) }
{
    Ok(WorldEvent::Node {
        peer: Peer {
            id: word(alloc, id)?,
            group: word(alloc, group)?,
            external: word(alloc, external)?,
        },
    })
}
