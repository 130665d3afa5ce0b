//! What a node of the slow twin answers to a message, by the table of deliveries.

use crate::edits::Frame;
use crate::twin_world::{NodeState, Shipment, after, count, front, item, with};
use pair_core::{Ack, Delivered};
use std::alloc::Global;
use std::test::Fail;

// The epoch of a frame, 0 where there is none.
fn epoch_at(journal: &Vec<Frame>, number: u32) -> u32 {
    match item(journal, number) {
        Some(frame) => frame.epoch,
        None => 0,
    }
}

fn ack(x: &Shipment, end: bool) -> Ack {
    Ack {
        epoch: x.epoch,
        number: x.number,
        end,
    }
}

/// What the node answers: the first row of the table that holds.
pub fn answer(node: &NodeState, x: &Shipment) -> Delivered {
    let len = count(&node.journal);
    let k = x.number;
    let own = epoch_at(&node.journal, k);
    if x.epoch < node.known {
        return Delivered::Stale {
            epoch: x.epoch,
            known: node.known,
        };
    }
    if after(len) < k {
        return Delivered::Behind { len, number: k };
    }
    if let Some(frame) = x.frame {
        if len >= k && own == frame.epoch {
            return Delivered::Have(ack(x, false));
        }
        if len >= k {
            return Delivered::Cut(k);
        }
    }
    if k > 1 && epoch_at(&node.journal, k.saturating_sub(1)) != x.before {
        return Delivered::Cut(k.saturating_sub(1));
    }
    if x.frame.is_some() {
        return Delivered::Stored(ack(x, false));
    }
    if len >= k && own < x.epoch {
        return Delivered::Cut(k);
    }
    Delivered::HaveEnd(ack(x, true))
}

/// The journal after the answer, where it changes.
pub fn changed(
    alloc: Global,
    journal: &Vec<Frame>,
    answer: Delivered,
    frame: Option<Frame>,
) -> Result<Option<Vec<Frame>>, Fail> {
    match (answer, frame) {
        (Delivered::Cut(k), _) => Ok(Some(front(alloc, journal, k.saturating_sub(1))?)),
        (Delivered::Stored(_), Some(frame)) => Ok(Some(with(alloc, journal, frame)?)),
        _ => Ok(None),
    }
}
