//! The parts of a change of duty.
ghost use Rattle.std.specs.Prelude.{◌≡◌, ◌≤◌, true, false};
ghost use Rattle.ali_base.specs.Duties.{next_duty};
ghost use Rattle.duty_register.specs.OpenRegister.{is_usable, duty_of as present_of};
ghost use Rattle.pair_core.specs.Pair.{IsCall, is_up, duty_of, count_of, bounds_of};
ghost use Rattle.pair_core.specs.PairAnswers.{ChangeRest};
ghost use Rattle.pair_core.specs.PairChanges.{MayChange, IsChange, MayFollow, HasChanged};
ghost use Rattle.pair_core.specs.PairDuties.{IsWritten, IsRead, HasEntered};

use crate::faults::PairFault;
use crate::pair::Pair;
use ali_base::{DiskName, Duty, Mode, NodeName};
use crash_disk::Disk;
use duty_register::{Register, RegisterFault};
use node_journal::DiskFault;

impl<D: Disk + Drop> Pair<D> {
    // The duty changes to one of this holder in this mode, over so many booked entries.
    pub(crate) fn change(
        &mut self,
        holder: NodeName,
        mode: Mode,
        count: u32,
    ) -> Result<Duty, PairFault>
        requires up { is_up self.old ≡ true }
        requires may { MayChange self.old holder mode }
        requires count { (count_of self.old ≤ count) × (count ≤ (bounds_of self.old).frames) }
        ensures causes { ChangeRest D.state self.old self.new (next_duty (duty_of self.old) holder mode count) result }
        ensures changed { IsChange D.state self.old self.new (next_duty (duty_of self.old) holder mode count) result }
        ensures call { IsCall D.state self.old self.new }
    {
        let duty = Duty {
            epoch: self.duty.epoch + 1,
            holder,
            mode,
            floor: count,
        };
        match self.write_duty(duty) {
            Ok(()) => {
                self.enter_duty(duty, count);
                Ok(duty)
            }
            Err(_) => Err(PairFault::Fault(DiskName::Duty)),
        }
    }

    // The register changes to this duty, which is in doubt until the pair enters it.
    fn write_duty(&mut self, duty: Duty) -> Result<(), DiskFault>
        requires up { is_up self.old ≡ true }
        requires next { MayFollow self.old.register duty }
        requires floor { duty.floor ≤ (bounds_of self.old).frames }
        ensures { IsWritten D.state self.old self.new duty result }
    {
        self.failed = Some(duty);
        change_register(&mut self.register, duty)
    }

    // The register is opened again, as it is. What is in doubt stays so.
    pub(crate) fn read_duty(&mut self) -> Result<(), RegisterFault>
        requires { is_up self.old ≡ false }
        ensures { IsRead D.state self.old self.new result }
    {
        self.register.reopen()
    }

    // The duty that the register tells is the present one from now on, over so many booked entries.
    pub(crate) fn enter_duty(&mut self, duty: Duty, count: u32)
        requires told { (is_usable self.old.register ≡ true) × (present_of self.old.register ≡ duty) }
        requires epoch { ((duty_of self.old).epoch ≤ duty.epoch) × (duty.epoch ≤ (bounds_of self.old).last_epoch) }
        requires count { (count_of self.old ≤ count) × (duty.floor ≤ count) × (count ≤ (bounds_of self.old).frames) }
        ensures { HasEntered self.old self.new duty count }
    {
        self.duty = duty;
        self.failed = None;
        self.count = count;
        self.acked = 0;
        self.ended = 0;
        self.nodes.get_mut(duty.holder).note_epoch(duty.epoch);
    }
}

// The register changes to this duty, which follows its present one: a node takes it, or the holder is
// paired again.
fn change_register<D: Disk + Drop>(register: &mut Register<D>, duty: Duty) -> Result<(), DiskFault>
    requires usable { is_usable register.old ≡ true }
    requires next { MayFollow register.old duty }
    ensures { HasChanged D.state register.old register.new duty result }
{
    match duty.mode {
        Mode::Alone => match register.take(duty.holder, duty.floor) {
            Ok(_) => Ok(()),
            Err(_) => Err(DiskFault),
        },
        Mode::Both => match register.pair(duty.floor) {
            Ok(_) => Ok(()),
            Err(_) => Err(DiskFault),
        },
    }
}
