//! The last duty of a register.
ghost use Rattle.std.specs.Prelude.{◌≡◌, ◌^◌, List, ℕ};
ghost use Rattle.duty_register.specs.DutiesRead.{AreReadUpTo};
ghost use Rattle.duty_register.specs.DutyBytes.{is_body};
ghost use Rattle.ali_base.specs.Duties.{first_duty};

use crate::duty_bytes::duty_of;
use ali_base::{Duty, Mode, NodeName};
use commit_log::BodyReader;

/// The last of the duties that were read.
#[derive(Drop)]
pub struct LastDuty {
    pub(crate) duty: Duty,
}

impl LastDuty {
    /// Nothing was read: the duty of a formatted disk.
    pub(crate) fn new() -> LastDuty
        ensures { result.duty ≡ first_duty }
    {
        LastDuty {
            duty: Duty {
                epoch: 1,
                holder: NodeName::A,
                mode: Mode::Both,
                floor: 0,
            },
        }
    }
}

impl BodyReader for LastDuty {
    ghost is_body = { is_body };

    ghost holds = { λ last bodies. AreReadUpTo last.duty bodies };

    ghost room = { λ last. 2 ^ 32 };

    ghost capacity = { λ last. 2 ^ 32 };

    fn read(&mut self, number: u32, bytes: &[u8]) -> bool {
        match duty_of(number, bytes) {
            Some(duty) => {
                self.duty = duty;
                true
            }
            None => false,
        }
    }
}
