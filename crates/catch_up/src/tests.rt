//! The plan, answer by answer.

use crate::*;

// The other node has no frame of two, then the first: each is stored or there, and the end ends it.
#[test]
fn a_short_journal_grows_frame_by_frame(rt: HostRuntime) {
    let mut plan = CatchUp::new(1);
    assert_eq!(rt; plan.next(), Some(1));
    plan.heard(CatchAnswer::Stored(1));
    assert_eq!(rt; plan.next(), Some(2));
    plan.heard(CatchAnswer::Have(2));
    assert_eq!(rt; plan.next(), Some(3));
    plan.heard(CatchAnswer::HaveEnd(3));
    assert_eq!(rt; plan.next(), None);
}

// A frame that differs is cut, and its number comes again.
#[test]
fn a_cut_leads_back(rt: HostRuntime) {
    let mut plan = CatchUp::new(3);
    plan.heard(CatchAnswer::Cut(2));
    assert_eq!(rt; plan.next(), Some(2));
    plan.heard(CatchAnswer::Cut(2));
    assert_eq!(rt; plan.next(), Some(2));
    plan.heard(CatchAnswer::Stored(2));
    assert_eq!(rt; plan.next(), Some(3));
}

// A node that is behind gets the frame after its last, up to the last that a journal may have.
#[test]
fn a_node_that_is_behind_gets_what_it_misses(rt: HostRuntime) {
    let mut plan = CatchUp::new(9);
    plan.heard(CatchAnswer::Behind(4));
    assert_eq!(rt; plan.next(), Some(5));
    plan.heard(CatchAnswer::Behind(MOST_NUMBER - 1));
    assert_eq!(rt; plan.next(), Some(MOST_NUMBER));
}
