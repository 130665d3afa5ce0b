//! The refusals of what is no job.
ghost use Rattle.std.specs.Prelude.{◌≡◌, ◌⊎◌, ℕ, List, Result, Err};
ghost use Rattle.sequence_once.specs.declared.standing.Standing.{Standing as AnyStanding};
ghost use Rattle.sequence_once.specs.declared.standing.CycleFault.{CycleFault as AnyFault};
ghost use Rattle.office_state.specs.Due.{standing_fault};
ghost use Rattle.batch_desk.specs.SubmitFaults.{IsEditFault};
ghost use Rattle.command_desk.specs.declared.refusal.Refusal.TheVariants.{Standing as StandingRefusal};

use crate::refusal::Refusal;
use batch_desk::SubmitFault;
use office_state::DueFault;
use sequence_once::CycleFault;

/// The refusal of an edit, or of a file without a fault of its frame, that is no job.
pub(crate) fn not_read(fault: SubmitFault) -> Refusal
    requires { (standing : Result AnyStanding AnyFault) × IsEditFault standing fault }
    ensures { (standing : Result AnyStanding AnyFault) → IsEditFault standing fault
        → (f : AnyFault) × (standing ≡ Err f) × (result ≡ StandingRefusal f) }
{
    match fault {
        SubmitFault::Frame(_) => unreachable!(),
        SubmitFault::Due(fault) => Refusal::Standing(cycle_fault(fault)),
    }
}

/// The fault of a standing, by the fault of an entry that is not due.
pub(crate) fn cycle_fault(fault: DueFault) -> CycleFault
    requires { (f : AnyFault) × (fault ≡ standing_fault f) }
    ensures { (f : AnyFault) → fault ≡ standing_fault f → result ≡ f }
{
    match fault {
        DueFault::Gap(cycle) => CycleFault::Gap(cycle),
        DueFault::Differs { kept, sent } => CycleFault::Differs { kept, sent },
        DueFault::TooOld(oldest) => CycleFault::TooOld(oldest),
        DueFault::CompaniesFull(limit) => CycleFault::CompaniesFull(limit),
        DueFault::Complete | DueFault::NotNext { .. } => unreachable!(),
    }
}
