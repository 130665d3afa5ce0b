//! The first block of a journal.
ghost use Rattle.std.specs.Prelude.{◌≡◌, take};
ghost use Rattle.commit_log.specs.LogState.{body_of};
ghost use Rattle.node_journal.specs.JournalImage.{first_block};

use ali_base::{NodeName, ZeroFilled};

/// The first block of a node's journal, and room for the commit byte behind it.
pub(crate) fn first_block(name: NodeName) -> [u8; 640]
    ensures body { body_of result ≡ first_block name }
    ensures head { take 639 result ≡ first_block name }
{
    let mut block = ZeroFilled::new();
    block.push(b"ALI OFFICE JRNL1");
    block.push(&name.text());
    block.whole()
}
