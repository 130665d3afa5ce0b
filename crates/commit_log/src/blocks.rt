//! The blocks of a log: where they stand, and their last byte.
ghost use Rattle.std.specs.Prelude.{◌≡◌, ◌≤◌, ◌+◌, ◌++◌, ◌∷◌, [], length};
ghost use Rattle.commit_log.specs.LogImage.{frame_place};
ghost use Rattle.commit_log.specs.LogState.{body_of};

/// The commit byte of a frame that is committed. Any other value does not commit it.
pub const COMMITTED: u8 = 0xA5;

/// The commit byte that is written before a frame that is not committed.
pub const UNCOMMITTED: u8 = 0;

/// The place of the frame of a number, where bodies have so many bytes.
pub fn place_of_frame(body_len: u32, number: u32) -> u64
    ensures { result ≡ frame_place body_len number }
{
    (body_len as u64 + 1) * number as u64
}

/// The place of the commit byte of the frame of a number.
pub fn place_of_commit(body_len: u32, number: u32) -> u64
    requires { 1 ≤ number }
    ensures { result + 1 ≡ frame_place body_len number }
{
    place_of_frame(body_len, number) - 1
}

/// Makes the last byte of a block one that does not commit the next frame.
pub fn uncommit_next(block: &mut [u8])
    requires { 1 ≤ length block.old }
    ensures { block.new ≡ body_of block.old ++ UNCOMMITTED ∷ [] }
{
    let last = block.len() - 1;
    block[last] = UNCOMMITTED;
}
