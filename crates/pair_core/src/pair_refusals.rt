//! The refusals of the calls of a pair: each call's row, in its order.
ghost use Rattle.std.specs.Prelude.{◌≡◌};
ghost use Rattle.pair_core.specs.PairRefusals as rows;
ghost use Rattle.pair_world.specs.Refusals.{is_alone};

use crate::faults::PairFault;
use crate::nodes::{disk_of, is_node, other};
use crate::pair::Pair;
use ali_base::{DiskName, Mode, NodeName};
use crash_disk::Disk;

/// The most messages that may be on their way.
pub const MOST_MESSAGES: u32 = 10_000;

impl<D: Disk + Drop> Pair<D> {
    pub(crate) fn duty_is_down(&self) -> Option<PairFault>
        ensures { result ≡ rows.duty_is_down self.now }
    {
        if self.register_up() {
            None
        } else {
            Some(PairFault::Down(DiskName::Duty))
        }
    }

    pub(crate) fn node_is_down(&self, n: NodeName) -> Option<PairFault>
        ensures { result ≡ rows.node_is_down self.now n }
    {
        if self.up(n) {
            None
        } else {
            Some(PairFault::Down(disk_of(n)))
        }
    }

    fn node_is_up(&self, n: NodeName) -> Option<PairFault>
        ensures { result ≡ rows.node_is_up self.now n }
    {
        if self.up(n) {
            Some(PairFault::Up(disk_of(n)))
        } else {
            None
        }
    }

    fn is_alone(&self) -> bool
        ensures { result ≡ is_alone self.now.duty.mode }
    {
        match self.duty.mode {
            Mode::Both => false,
            Mode::Alone => true,
        }
    }

    fn out_of_duty(&self, n: NodeName) -> PairFault
        ensures { result ≡ rows.out_of_duty self.now n }
    {
        PairFault::OutOfDuty {
            node: n,
            epoch: self.duty.epoch,
            holder: self.duty.holder,
        }
    }

    fn not_holder(&self, n: NodeName) -> Option<PairFault>
        ensures { result ≡ rows.not_holder self.now n }
    {
        if is_node(n, self.duty.holder) {
            None
        } else {
            Some(self.out_of_duty(n))
        }
    }

    fn not_in_duty(&self, n: NodeName) -> Option<PairFault>
        ensures { result ≡ rows.not_in_duty self.now n }
    {
        if self.is_alone() && !is_node(n, self.duty.holder) {
            Some(self.out_of_duty(n))
        } else {
            None
        }
    }

    fn in_flight(&self) -> Option<PairFault>
        ensures { result ≡ rows.in_flight self.now }
    {
        if self.count < self.len(self.duty.holder) {
            Some(PairFault::InFlight(self.count + 1))
        } else {
            None
        }
    }

    fn no_flight(&self) -> Option<PairFault>
        ensures { result ≡ rows.no_flight self.now }
    {
        if self.len(self.duty.holder) <= self.count {
            Some(PairFault::NoFlight)
        } else {
            None
        }
    }

    fn unstored(&self) -> Option<PairFault>
        ensures { result ≡ rows.unstored self.now }
    {
        if !self.is_alone() && self.acked <= self.count {
            Some(PairFault::Unstored {
                number: self.count + 1,
                epoch: self.duty.epoch,
            })
        } else {
            None
        }
    }

    fn no_entry(&self, k: u32) -> Option<PairFault>
        ensures { result ≡ rows.no_entry self.now k }
    {
        let len = self.len(self.duty.holder);
        if len + 1 < k {
            Some(PairFault::NoEntry { number: k, len })
        } else {
            None
        }
    }

    fn messages_full(&self) -> Option<PairFault>
        ensures { result ≡ rows.messages_full self.now }
    {
        if MOST_MESSAGES as usize <= self.messages.len() {
            Some(PairFault::MessagesFull(MOST_MESSAGES))
        } else {
            None
        }
    }

    fn not_paired(&self) -> Option<PairFault>
        ensures { result ≡ rows.not_paired self.now }
    {
        if self.is_alone() {
            Some(PairFault::NotPaired {
                epoch: self.duty.epoch,
                holder: self.duty.holder,
            })
        } else {
            None
        }
    }

    fn paired(&self) -> Option<PairFault>
        ensures { result ≡ rows.paired self.now }
    {
        if self.is_alone() {
            None
        } else {
            Some(PairFault::Paired {
                epoch: self.duty.epoch,
                holder: self.duty.holder,
            })
        }
    }

    fn not_in_step(&self) -> Option<PairFault>
        ensures { result ≡ rows.not_in_step self.now }
    {
        if self.ended <= self.count {
            Some(PairFault::NotInStep {
                ended: self.ended,
                due: self.count + 1,
            })
        } else {
            None
        }
    }

    fn epoch_end(&self) -> Option<PairFault>
        ensures { result ≡ rows.epoch_end self.now }
    {
        if self.register.last_epoch() <= self.duty.epoch {
            Some(PairFault::EpochEnd(self.duty.epoch))
        } else {
            None
        }
    }

    // How many frames the node's journal must have when it starts.
    pub(crate) fn needed_length(&self, n: NodeName) -> u32
        ensures { result ≡ rows.needed_length self.now n }
    {
        if is_node(n, self.duty.holder) || !self.is_alone() {
            self.count
        } else {
            0
        }
    }

    /// Why the table of a node may not be made ready; none where it may. In mode Alone only the holder
    /// answers.
    pub fn ready_refusal(&self, n: NodeName) -> Option<PairFault>
        ensures { result ≡ rows.ready_refusal self.now n }
    {
        self.duty_is_down()
            .or(self.node_is_down(n))
            .or(self.not_in_duty(n))
    }

    /// Why the node may not write an entry, whichever it is; none where it may. Only the holder writes,
    /// and only where no entry is pending.
    pub fn write_refusal(&self, n: NodeName) -> Option<PairFault>
        ensures { result ≡ rows.write_refusal self.now n }
    {
        self.duty_is_down()
            .or(self.node_is_down(n))
            .or(self.not_holder(n))
            .or(self.in_flight())
    }

    /// Why the holder may do nothing; none where it and the register are up.
    pub fn held_refusal(&self) -> Option<PairFault>
        ensures { result ≡ rows.held_refusal self.now }
    {
        self.duty_is_down().or(self.node_is_down(self.duty.holder))
    }

    pub(crate) fn book_refusal(&self) -> Option<PairFault>
        ensures { result ≡ rows.book_refusal self.now }
    {
        self.duty_is_down()
            .or(self.node_is_down(self.duty.holder))
            .or(self.no_flight())
            .or(self.unstored())
    }

    pub(crate) fn ship_refusal(&self, n: NodeName, k: u32) -> Option<PairFault>
        ensures { result ≡ rows.ship_refusal self.now n k }
    {
        self.duty_is_down()
            .or(self.node_is_down(n))
            .or(self.not_holder(n))
            .or(self.no_entry(k))
            .or(self.messages_full())
    }

    pub(crate) fn shipment_refusal(&self, sender: NodeName) -> Option<PairFault>
        ensures { result ≡ rows.shipment_refusal self.now sender }
    {
        self.duty_is_down()
            .or(self.node_is_down(other(sender)))
            .or(self.messages_full())
    }

    pub(crate) fn ack_refusal(&self, to: NodeName) -> Option<PairFault>
        ensures { result ≡ rows.ack_refusal self.now to }
    {
        self.duty_is_down().or(self.node_is_down(to))
    }

    pub(crate) fn shipping_refusal(&self, k: u32) -> Option<PairFault>
        ensures { result ≡ rows.shipping_refusal self.now k }
    {
        self.duty_is_down()
            .or(self.node_is_down(self.duty.holder))
            .or(self.no_entry(k))
    }

    /// Why the other node may not be brought to the holder's journal, which goes by passing frames on;
    /// none where it may. Only a holder that is alone catches the other up, and both nodes are up.
    pub fn catch_up_refusal(&self) -> Option<PairFault>
        ensures { result ≡ rows.catch_up_refusal self.now }
    {
        let holder = self.duty.holder;
        self.duty_is_down()
            .or(self.node_is_down(holder))
            .or(self.paired())
            .or(self.node_is_down(other(holder)))
    }

    pub(crate) fn take_refusal(&self, n: NodeName) -> Option<PairFault>
        ensures { result ≡ rows.take_refusal self.now n }
    {
        self.duty_is_down()
            .or(self.node_is_down(n))
            .or(self.not_paired())
            .or(self.epoch_end())
    }

    pub(crate) fn pair_refusal(&self) -> Option<PairFault>
        ensures { result ≡ rows.pair_refusal self.now }
    {
        self.duty_is_down()
            .or(self.node_is_down(self.duty.holder))
            .or(self.paired())
            .or(self.in_flight())
            .or(self.not_in_step())
            .or(self.epoch_end())
    }

    pub(crate) fn start_refusal(&self, n: NodeName) -> Option<PairFault>
        ensures { result ≡ rows.start_refusal self.now n }
    {
        self.duty_is_down().or(self.node_is_up(n))
    }
}
