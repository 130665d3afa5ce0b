//! Changes of duty.
ghost use Rattle.std.specs.Prelude.{◌≡◌, ◌⊎◌, true, false};
ghost use Rattle.ali_base.specs.Duties.{next_duty};
ghost use Rattle.ali_base.specs.declared.duty.Mode.TheVariants as modes;
ghost use Rattle.pair_core.specs.Pair.{Does, Moments, IsCall, duty_of, count_of, len_of, bounds_of};
ghost use Rattle.pair_core.specs.PairAnswers.{told, Unless, ChangeRest, TakeRest, StartDutyRest, KeepsOther, KeepsTaker, KeepsNodes, register_fault};
ghost use Rattle.pair_core.specs.PairRefusals as rows;
ghost use Rattle.pair_world.specs.Step as events;
ghost use Rattle.world_rows.specs.Told.{On_duty, Started_duty};
ghost use Rattle.world_rows.specs.WorldRows.{take_row, alone_row, pair_row, start_duty_row};

use crate::faults::PairFault;
use crate::nodes::disk_of;
use crate::pair::Pair;
use ali_base::{DiskName, Duty, Mode, NodeName};
use crash_disk::Disk;
use duty_register::{
    RegisterFault, an_image_is_read_one_way, duties_are_counted, duties_are_known_from_the_image,
};
use world_rows::{rows_are_steps, steps_keep_worlds_lawful};

impl<D: Disk + Drop> Pair<D> {
    /// The node takes the duty, and is then alone; its whole journal is booked.
    pub fn take(&mut self, n: NodeName) -> Result<Duty, PairFault>
        ensures does { Does D.state self.old self.new
            (λ limits lasted w. take_row limits w (bounds_of self.old) n) (told On_duty result) }
        ensures moments { Moments D.state self.old self.new (events.Take n) }
        ensures causes { Unless (rows.take_refusal self.old n) self.old self.new result
            (TakeRest D.state self.old self.new n
            (next_duty (duty_of self.old) n modes.Alone (len_of self.old n)) result) }
        ensures beside { KeepsOther self.old self.new n × KeepsTaker self.old self.new n result }
        ensures call { IsCall D.state self.old self.new }
    {
        if let Some(refusal) = self.take_refusal(n) {
            return Err(refusal);
        }
        // What the rows are in the world, and that the booked history only grows.
        rows_are_steps();
        steps_keep_worlds_lawful();
        let len = self.len(n);
        if len < self.count {
            self.stop_node(n);
            return Err(PairFault::Damaged(disk_of(n), len + 1));
        }
        self.change(n, Mode::Alone, len)
    }

    /// The holder goes on alone.
    pub fn alone(&mut self) -> Result<Duty, PairFault>
        ensures does { Does D.state self.old self.new
            (λ limits lasted w. alone_row limits w (bounds_of self.old)) (told On_duty result) }
        ensures moments { Moments D.state self.old self.new events.Go_alone }
        ensures causes { Unless (rows.take_refusal self.old (rows.holder self.old)) self.old self.new result
            (ChangeRest D.state self.old self.new
            (next_duty (duty_of self.old) (rows.holder self.old) modes.Alone (count_of self.old)) result) }
        ensures beside { KeepsNodes self.old self.new }
        ensures call { IsCall D.state self.old self.new }
    {
        let holder = self.duty.holder;
        if let Some(refusal) = self.take_refusal(holder) {
            return Err(refusal);
        }
        // What the rows are in the world.
        rows_are_steps();
        self.change(holder, Mode::Alone, self.count)
    }

    /// Both nodes are in step again.
    pub fn pair_up(&mut self) -> Result<Duty, PairFault>
        ensures does { Does D.state self.old self.new
            (λ limits lasted w. pair_row limits w (bounds_of self.old)) (told On_duty result) }
        ensures moments { Moments D.state self.old self.new events.Pair_up }
        ensures causes { Unless (rows.pair_refusal self.old) self.old self.new result
            (ChangeRest D.state self.old self.new
            (next_duty (duty_of self.old) (rows.holder self.old) modes.Both (count_of self.old)) result) }
        ensures beside { KeepsNodes self.old self.new }
        ensures call { IsCall D.state self.old self.new }
    {
        if let Some(refusal) = self.pair_refusal() {
            return Err(refusal);
        }
        // What the rows are in the world.
        rows_are_steps();
        self.change(self.duty.holder, Mode::Both, self.count)
    }

    /// Starts the register, which is down: it is opened again, and has to tell the duty from before
    /// or the one of the change that failed.
    pub fn start_duty(&mut self) -> Result<Duty, PairFault>
        ensures does { Does D.state self.old self.new (λ limits lasted w. start_duty_row limits w lasted) (told Started_duty result) }
        ensures moments { Moments D.state self.old self.new events.Start_duty }
        ensures causes { StartDutyRest D.state self.old self.new result }
        ensures beside { KeepsNodes self.old self.new }
        ensures call { IsCall D.state self.old self.new }
    {
        let failed = match self.failed {
            Some(failed) => failed,
            None => return Err(PairFault::Up(DiskName::Duty)),
        };
        // What the images of a disk may be.
        duties_are_known_from_the_image();
        duties_are_counted();
        an_image_is_read_one_way();
        if let Err(fault) = self.read_duty() {
            return Err(register_fault(fault));
        }
        let duty = self.register.duty();
        if is_another(duty, self.duty, failed) {
            return Err(PairFault::Damaged(DiskName::Duty, duty.epoch - 1));
        }
        self.enter_duty(duty, self.count.max(duty.floor));
        Ok(duty)
    }
}

// Whether the duty is none of the two.
fn is_another(duty: Duty, present: Duty, failed: Duty) -> bool
    ensures yes { result ≡ true → (duty ≡ present → ⊥) × (duty ≡ failed → ⊥) }
    ensures no { result ≡ false → (duty ≡ present) ⊎ (duty ≡ failed) }
{
    duty != present && duty != failed
}

// Why the register is not started.
fn register_fault(fault: RegisterFault) -> PairFault
    ensures { result ≡ register_fault fault }
{
    match fault {
        RegisterFault::DiskFault => PairFault::Fault(DiskName::Duty),
        RegisterFault::Foreign => PairFault::Foreign(DiskName::Duty),
        RegisterFault::Damaged(frame) => PairFault::Damaged(DiskName::Duty, frame),
    }
}
