//! The first block of a register.
ghost use Rattle.std.specs.Prelude.{◌≡◌, take};
ghost use Rattle.commit_log.specs.LogState.{body_of};
ghost use Rattle.duty_register.specs.DutyImage.{first_block};

use ali_base::ZeroFilled;

/// The first block of a register, and room for the commit byte behind it.
pub(crate) fn first_block() -> [u8; 32]
    ensures body { body_of result ≡ first_block }
    ensures head { take 31 result ≡ first_block }
{
    let mut block = ZeroFilled::new();
    block.push(b"ALI OFFICE DUTY1");
    block.whole()
}
