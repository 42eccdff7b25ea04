// A message: the batches that its sender offers, and the loads that its receiver makes of them.
ghost use Rattle.std.specs.Prelude.{◌≡◌, ℕ, List, [], true, All, IfOk, Ok, map};
ghost use Rattle.sds_value.specs.declared.row.DocRow.{DocRow};
ghost use Rattle.sds_first_spec.specs.declared.batch.Sent.{Sent};
ghost use Rattle.sds_first_spec.specs.Acts.{History};
ghost use Rattle.sds_first_spec.specs.Calls.{offer_answer};
ghost use Rattle.sds_first_spec.specs.One.{one};
ghost use Rattle.sds_first_spec.specs.Outcome.{is_whole_insert};
ghost use Rattle.sds_first_laws.specs.Loads.{is_loaded, load_of, after_load, after_loads, loads_acks, sent_at};
ghost use Rattle.sds_first_node.specs.Meaning.{StandsFor, kept_of};

use sds_base::{NoMemory, Txt};
use sds_first_node::Node;
use sds_first_spec::Sent;
use sds_types::{Ack, LoadAnswer, NodeFault, PeerRefusal};
use std::alloc::Global;

/// The batches that a node's next message to another takes, with their rows.
pub(crate) fn message_to(alloc: Global, node: &Node, to: &Txt) -> Result<Vec<Sent>, NoMemory>
    ensures { IfOk result (λ sents. (ids : List ℕ) → offer_answer one (kept_of node.now) to.now [] ≡ Ok ids → sents.items ≡ map (sent_at one (kept_of node.now)) ids) }
{
    let ids = match node.offer(to.as_str(), &[]) {
        Ok(ids) => ids,
        Err(PeerRefusal::UnknownNode) => return Ok(Vec::new(alloc)),
        Err(PeerRefusal::Fault(_)) => return Err(NoMemory),
    };
    with_rows(alloc, node, ids.inner())
}

/// The batches of these numbers, with their rows.
fn with_rows(alloc: Global, node: &Node, ids: &[u64]) -> Result<Vec<Sent>, NoMemory>
    ensures { IfOk result (λ sents. sents.items ≡ map (sent_at one (kept_of node.now)) ids.now) }
{
    let mut sents = Vec::new(alloc);
    for id in ids {
        sents.push(Sent {
            id: *id,
            rows: node.rows(*id)?,
        })?;
    }
    Ok(sents)
}

/// Loads a message's batches at a node, one after another until one isn't loaded, and gives what the node says of them.
pub(crate) fn deliver(
    alloc: Global,
    node: &mut Node,
    from: &Txt,
    sents: &[Sent],
) -> Result<Vec<Ack>, NoMemory>
    ensures { IfOk result (λ acks. (h : History) → All (λ (sent : Sent). All (λ (doc : DocRow). is_whole_insert one doc ≡ true) sent.rows) sents.now → StandsFor node.old h
        → (acks.items ≡ loads_acks one from.now 0 sents.now h) × StandsFor node.new (after_loads one from.now 0 sents.now h)) }
{
    let mut acks = Vec::new(alloc);
    for sent in sents {
        if !load(node, from, sent)? {
            return Ok(acks);
        }
        acks.push(Ack {
            batch: sent.id,
            error: None,
        })?;
    }
    Ok(acks)
}

/// Loads one batch at a node, and says whether it is loaded, now or before.
fn load(node: &mut Node, from: &Txt, sent: &Sent) -> Result<bool, NoMemory>
    ensures loaded { IfOk result (λ holds. (h : History) → StandsFor node.old h → holds ≡ is_loaded (load_of one from.now 0 sent.now h)) }
    ensures stands { IfOk result (λ _. (h : History) → All (λ (doc : DocRow). is_whole_insert one doc ≡ true) sent.now.rows → StandsFor node.old h
        → StandsFor node.new (after_load one from.now 0 sent.now h)) }
{
    match node.load(from.as_str(), 0, sent.id, sent.rows.inner()) {
        Ok(LoadAnswer::Loaded { .. } | LoadAnswer::Ignored { .. } | LoadAnswer::Again) => Ok(true),
        Ok(LoadAnswer::Erred { .. } | LoadAnswer::Held { .. }) => Ok(false),
        Err(PeerRefusal::Fault(NodeFault::NoMemory)) => Err(NoMemory),
        Err(_) => Ok(false),
    }
}
