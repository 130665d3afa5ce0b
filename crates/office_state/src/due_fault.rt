//! Why an entry may not be booked.
ghost use Rattle.std.specs.Prelude.{◌≡◌};
ghost use Rattle.office_state.specs.Due.{standing_fault};

use sequence_once::CycleFault;

/// Why an entry may not be booked next.
#[derive(Clone, Copy, Debug, PartialEq, Eq)]
pub enum DueFault {
    /// The cycle, or the serial of an edit, is too high; the number is the one that is due.
    Gap(u32),
    /// The cycle is kept with the digest of another file, or the serial is the editor's last, of another
    /// edit.
    Differs {
        /// The digest that is kept.
        kept: [u8; 32],
        /// The digest of this file or edit.
        sent: [u8; 32],
    },
    /// The cycle is no longer kept, and the number is the oldest kept cycle of the company; or the serial
    /// is below the editor's last, which is the number.
    TooOld(u32),
    /// The company is new, and there are as many companies as this limit.
    CompaniesFull(u32),
    /// The cycle is finished, or the edit was booked, with this digest.
    Complete,
    /// The line is not its company's next, or the cycle is open already. These are the cycle and the
    /// line that may be booked, 0 and 0 where the company's last cycle is finished.
    NotNext {
        cycle: u32,
        line: u32,
    },
}

impl DueFault {
    /// The fault of the standing of a file or an edit.
    pub fn of(fault: CycleFault) -> Self
        ensures { result ≡ standing_fault fault }
    {
        match fault {
            CycleFault::Gap(cycle) => DueFault::Gap(cycle),
            CycleFault::Differs { kept, sent } => DueFault::Differs { kept, sent },
            CycleFault::TooOld(oldest) => DueFault::TooOld(oldest),
            CycleFault::CompaniesFull(limit) => DueFault::CompaniesFull(limit),
        }
    }
}
