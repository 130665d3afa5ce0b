//! The register.
ghost use Rattle.std.specs.Prelude.{◌≡◌, ◌≤◌, ◌<◌, ◌+◌, true, is_ok};
ghost use Rattle.ali_base.specs.Duties.{next_duty};
ghost use Rattle.ali_base.specs.declared.duty.Mode.TheVariants as modes;
ghost use Rattle.commit_log.specs.OpenLog.{body_len_of, limit_of as log_limit, count_of as log_count, is_usable as log_usable};
ghost use Rattle.duty_register.specs.declared.register.TheConstants.{LAST_EPOCH};

use crate::duty_bytes::duty_block;
use crate::faults::{DutyFault, RegisterFault, refusal};
use crate::head::first_block;
use crate::last_duty::LastDuty;
use ali_base::{Duty, Mode, NodeName};
use commit_log::{AppendFault, Log};
use crash_disk::Disk;

/// The greatest last epoch.
pub const LAST_EPOCH: u32 = 4_194_303;

// How many bytes are read at a time while a register is opened: 1,024 blocks.
const PIECE: usize = 32_768;

/// The register of duty on its disk.
#[derive(Drop)]
pub struct Register<D> {
    log: Log<D, LastDuty>,
    duty: Duty,
    ghost body_len: { body_len_of log ≡ 31 },
    ghost few: { log_limit log < LAST_EPOCH },
    ghost counted: { log_usable log ≡ true → duty.epoch ≡ log_count log + 1 },
}

impl<D: Disk + Drop> Register<D> {
    ghost use Rattle.duty_register.specs.OpenRegister.{OpenAnswers, ReopenAnswers, ChangeAnswers, Becomes, CrashesBetween, IsFixed};
    ghost use Rattle.duty_register.specs.OpenRegister.{disk_of, duty_of, last_epoch_of, is_usable, taken, left_alone, paired};

    /// Opens the register, whose duties have at most the last epoch. It syncs the disk, changes no
    /// byte, and takes no memory.
    pub fn open(disk: D, last_epoch: u32) -> Result<Register<D>, (D, RegisterFault)>
        requires { (1 ≤ last_epoch) × (last_epoch ≤ LAST_EPOCH) }
        ensures { OpenAnswers D.state disk last_epoch result }
    {
        let mut last = LastDuty::new();
        let block = first_block();
        let mut piece = [0; PIECE];
        match Log::open(disk, &block[..31], last_epoch - 1, &mut piece, &mut last) {
            Ok(log) => Ok(Register {
                log,
                duty: last.duty,
            }),
            Err((disk, fault)) => Err((disk, refusal(fault))),
        }
    }

    /// Opens the register again, as it is. Where it is refused, the register is not usable, and
    /// tells the old duty. It takes no memory.
    pub fn reopen(&mut self) -> Result<(), RegisterFault>
        ensures answer { ReopenAnswers D.state self.old self.new result }
        ensures usable { is_usable self.new ≡ is_ok result }
        ensures fixed { IsFixed D.state self.old self.new }
    {
        let mut last = LastDuty::new();
        let block = first_block();
        let mut piece = [0; PIECE];
        match self.log.reopen(&block[..31], &mut piece, &mut last) {
            Ok(()) => {
                self.duty = last.duty;
                Ok(())
            }
            Err(fault) => Err(refusal(fault)),
        }
    }

    /// Gives the disk back.
    pub fn close(self) -> D
        ensures { result ≡ disk_of self }
    {
        self.log.close()
    }

    /// False once a change of duty or an opening again was refused by the disk, until the register
    /// is opened again.
    pub fn usable(&self) -> bool
        ensures { result ≡ is_usable self.now }
    {
        self.log.usable()
    }

    /// The present duty; after a change that the disk refused, the one from before.
    pub fn duty(&self) -> Duty
        ensures { result ≡ duty_of self.now }
    {
        self.duty
    }

    /// The greatest epoch that a duty may have.
    pub fn last_epoch(&self) -> u32
        ensures { result ≡ last_epoch_of self.now }
    {
        self.log.limit() + 1
    }

    /// A node takes the duty, and is then alone. From `Ok` on, each crash leaves a disk that has it.
    pub fn take(&mut self, n: NodeName, floor: u32) -> Result<Duty, DutyFault>
        requires usable { is_usable self.old ≡ true }
        ensures stored { Becomes D.state (taken (duty_of self.old) n floor)
            self.old self.new result }
        // A crash at any moment leaves the duties from before, with the new one or without.
        ensures moments { CrashesBetween D.state (taken (duty_of self.old) n floor)
            self.old self.new }
        ensures answer { ChangeAnswers D.state modes.Both (taken (duty_of self.old) n floor)
            self.old self.new result }
        ensures fixed { IsFixed D.state self.old self.new }
    {
        let Duty {
            epoch,
            holder,
            mode,
            ..
        } = self.duty;
        match mode {
            Mode::Both => self.change(n, Mode::Alone, floor),
            Mode::Alone => Err(DutyFault::NotPaired { epoch, holder }),
        }
    }

    /// The holder goes on alone. From `Ok` on, each crash leaves a disk that has it.
    pub fn alone(&mut self, floor: u32) -> Result<Duty, DutyFault>
        requires usable { is_usable self.old ≡ true }
        ensures stored { Becomes D.state (left_alone (duty_of self.old) floor)
            self.old self.new result }
        // A crash at any moment leaves the duties from before, with the new one or without.
        ensures moments { CrashesBetween D.state (left_alone (duty_of self.old) floor)
            self.old self.new }
        ensures answer { ChangeAnswers D.state modes.Both (left_alone (duty_of self.old) floor)
            self.old self.new result }
        ensures fixed { IsFixed D.state self.old self.new }
    {
        let holder = self.duty.holder;
        self.take(holder, floor)
    }

    /// Both nodes are in step again. From `Ok` on, each crash leaves a disk that has it.
    pub fn pair(&mut self, floor: u32) -> Result<Duty, DutyFault>
        requires usable { is_usable self.old ≡ true }
        ensures stored { Becomes D.state (paired (duty_of self.old) floor)
            self.old self.new result }
        // A crash at any moment leaves the duties from before, with the new one or without.
        ensures moments { CrashesBetween D.state (paired (duty_of self.old) floor)
            self.old self.new }
        ensures answer { ChangeAnswers D.state modes.Alone (paired (duty_of self.old) floor)
            self.old self.new result }
        ensures fixed { IsFixed D.state self.old self.new }
    {
        let Duty {
            epoch,
            holder,
            mode,
            ..
        } = self.duty;
        match mode {
            Mode::Alone => self.change(holder, Mode::Both, floor),
            Mode::Both => Err(DutyFault::Paired { epoch, holder }),
        }
    }

    // Adds the duty after the present one, in whatever mode that is.
    fn change(&mut self, holder: NodeName, mode: Mode, floor: u32) -> Result<Duty, DutyFault>
        requires usable { is_usable self.old ≡ true }
        ensures stored { Becomes D.state (next_duty (duty_of self.old) holder mode floor)
            self.old self.new result }
        ensures moments { CrashesBetween D.state (next_duty (duty_of self.old) holder mode floor)
            self.old self.new }
        ensures answer { ChangeAnswers D.state (duty_of self.old).mode
            (next_duty (duty_of self.old) holder mode floor) self.old self.new result }
        ensures fixed { IsFixed D.state self.old self.new }
    {
        let duty = Duty {
            epoch: self.duty.epoch + 1,
            holder,
            mode,
            floor,
        };
        match self.log.append(&mut duty_block(duty)) {
            Ok(_) => {
                self.duty = duty;
                Ok(duty)
            }
            Err(AppendFault::Full(_)) => Err(DutyFault::EpochEnd(self.duty.epoch)),
            Err(AppendFault::DiskFault) => Err(DutyFault::DiskFault),
        }
    }
}
