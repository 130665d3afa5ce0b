//! The bytes of a frame.
ghost use Rattle.std.specs.Prelude.{◌≡◌, IfSome, option_map};
ghost use Rattle.commit_log.specs.LogState.{body_of};
ghost use Rattle.office_entry.specs.EntryBytes.{IsInRange};
ghost use Rattle.node_journal.specs.FrameBytes.{IsBodyOf, body, frame_from};

use ali_base::{ZeroFilled, front, number_at};
use office_entry::Entry;

/// The last epoch.
pub const LAST_EPOCH: u32 = 4_194_303;

/// The most frames that a journal has.
pub const MOST_FRAMES: u32 = 1_000_000;

/// The body of the frame of a number, and room for the commit byte behind it.
pub(crate) fn frame_block(number: u32, epoch: u32, entry: &Entry) -> [u8; 640]
    ensures body { body_of result ≡ body number (record { entry = entry.now; epoch = epoch }) }
    ensures lawful { IsInRange entry.now }
{
    let mut block = ZeroFilled::new();
    block.push_number(number);
    block.push_number(epoch);
    block.push(&entry.bytes());
    block.whole()
}

/// The entry and the epoch of a body. None where the bytes are no body of the frame of that number.
pub(crate) fn frame_of(number: u32, bytes: &[u8]) -> Option<(Entry, u32)>
    ensures found { IfSome result
        (λ x. IsBodyOf number (record { entry = x.0; epoch = x.1 }) bytes.now) }
    // The same by the reader.
    ensures exact { option_map (λ x. record { entry = x.0; epoch = x.1 }) result
        ≡ frame_from number bytes.now }
{
    frame_from(number, bytes)
}

// The entry and the epoch of a body, by its fields from the front.
#[tactic(auto, unfolding(crate::specs::FrameBytes::frame_from))]
fn frame_from(number: u32, bytes: &[u8]) -> Option<(Entry, u32)>
    ensures { option_map (λ x. record { entry = x.0; epoch = x.1 }) result
        ≡ frame_from number bytes.now }
{
    let (told, rest) = number_at(bytes)?;
    let (epoch, rest) = number_at(rest)?;
    let (fields, rest) = front::<631>(rest)?;
    let entry = Entry::from_bytes(fields)?;
    if rest.is_empty() && told == number && 1 <= epoch && epoch <= LAST_EPOCH {
        Some((entry, epoch))
    } else {
        None
    }
}
