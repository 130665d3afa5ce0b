//! The epochs of a journal's frames.
ghost use Rattle.std.specs.Prelude.{◌≡◌, ◌+◌, ◌≤◌, ◌-◌, ◌<◌, ◌^◌, [], ◌∷◌, ◌++◌, List, ℕ, length, take, slice_index, IfOk, vec_capacity};
ghost use Rattle.commit_log.specs.LogState.{with_body};
ghost use Rattle.node_journal.specs.EpochsRead.{AreEpochsOf};
ghost use Rattle.node_journal.specs.FrameBytes.{is_body};

use crate::frame::frame_of;
use ali_base::NoMemory;
use commit_log::BodyReader;
use std::alloc::Global;

/// The epochs of frames, in room that was taken for all that there may be.
#[derive(Drop)]
pub struct Epochs {
    items: Vec<u32>,
    ghost within: { length items.items ≤ vec_capacity items },
}

impl Epochs {
    /// Takes room for so many.
    pub(crate) fn new(alloc: Global, limit: u32) -> Result<Epochs, NoMemory>
        ensures { IfOk result (λ e. (e.items.items ≡ []) × (limit ≤ vec_capacity e.items)) }
    {
        let mut items = Vec::new(alloc);
        items.try_reserve(limit as usize)?;
        Ok(Epochs { items })
    }

    /// How many there are.
    pub(crate) fn len(&self) -> usize
        ensures { result ≡ length self.now.items.items }
    {
        self.items.len()
    }

    /// The epoch of the frame of a number, from 1.
    pub(crate) fn get(&self, k: u32) -> u32
        requires { (1 ≤ k) × (k ≤ length self.now.items.items) }
        ensures { result ≡ slice_index self.now.items.items (k - 1) }
    {
        self.items[k as usize - 1]
    }

    /// Adds that of the next frame.
    pub(crate) fn push(&mut self, epoch: u32)
        requires { length self.old.items.items < vec_capacity self.old.items }
        ensures items { self.new.items.items ≡ self.old.items.items ++ epoch ∷ [] }
        ensures room { vec_capacity self.new.items ≡ vec_capacity self.old.items }
    {
        self.items.push_reserved(epoch);
    }

    /// Keeps those of the first frames, so many.
    pub(crate) fn truncate(&mut self, count: usize)
        ensures items { self.new.items.items ≡ take count self.old.items.items }
        ensures room { vec_capacity self.new.items ≡ vec_capacity self.old.items }
    {
        self.items.truncate(count);
    }
}

impl BodyReader for Epochs {
    ghost is_body = { is_body };

    ghost holds = { λ e bodies. AreEpochsOf bodies e.items.items };

    ghost room = { λ e. vec_capacity e.items - length e.items.items };

    ghost capacity = { λ e. vec_capacity e.items };

    fn read(&mut self, number: u32, bytes: &[u8]) -> bool {
        match frame_of(number, bytes) {
            Some((_, epoch)) => {
                self.push(epoch);
                true
            }
            None => false,
        }
    }
}
