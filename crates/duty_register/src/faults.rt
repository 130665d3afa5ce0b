//! Why a call of a register was refused.
ghost use Rattle.std.specs.Prelude.{◌≡◌};
ghost use Rattle.duty_register.specs.OpenRegister.{refusal};

use ali_base::NodeName;
use commit_log::OpenFault;

/// Why a register was not opened.
#[derive(Clone, Copy, Debug, PartialEq, Eq)]
pub enum RegisterFault {
    /// The disk failed.
    DiskFault,
    /// The disk is no register of duty.
    Foreign,
    /// The frame of this number is committed, and is not there as a whole, or its epoch is past the last one.
    Damaged(u32),
}

/// Why the duty did not change. It tells the present duty.
#[derive(Clone, Copy, Debug, PartialEq, Eq)]
pub enum DutyFault {
    /// The holder is alone already.
    NotPaired { epoch: u32, holder: NodeName },
    /// Both nodes are in step already.
    Paired { epoch: u32, holder: NodeName },
    /// The present duty has the last epoch.
    EpochEnd(u32),
    /// The disk failed. The register is opened again.
    DiskFault,
}

/// Why the register was not opened, by why its log was not.
pub(crate) fn refusal(fault: OpenFault) -> RegisterFault
    ensures { result ≡ refusal fault }
{
    match fault {
        OpenFault::DiskFault => RegisterFault::DiskFault,
        OpenFault::Foreign => RegisterFault::Foreign,
        OpenFault::Damaged(frame) => RegisterFault::Damaged(frame),
    }
}
