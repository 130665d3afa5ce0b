//! Laws of the machine, for whoever reads its definitions.
ghost use Rattle.std.specs.Prelude.{◌≡◌, ℕ, List, [], ◌∷◌, ◌++◌, length, AllPairs, All, Ok};
ghost use Rattle.catch_up.specs.CatchingUp.{IsInStep};
ghost use Rattle.sequence_once.specs.declared.standing.Standing.{Standing};
ghost use Rattle.msag_edits.specs.GuideSoundness.{AreSound};
ghost use Rattle.office_entry.specs.declared.entry.Entry.{Entry};
ghost use Rattle.office_state.specs.History.{IsLegal, Repeats};
ghost use Rattle.office_state.specs.OfficeState.{State, office_limits};
ghost use Rattle.pair_world.specs.Frames.{Begins, entries};
ghost use Rattle.pair_world.specs.World.{holder_journal};
ghost use Rattle.world_rows.specs.Counts.{NoneRose};
ghost use Rattle.batch_desk.specs.declared.job.Job.{Job};
ghost use Rattle.batch_desk.specs.Jobs.{job_standing, entries_left};
ghost use Rattle.office_commands.specs.Commands.{Command, Batch, Catch_up, IsCommand};
ghost use Rattle.command_machine.specs.Machine.{Machine, Moment, IsLawful, state_of};
ghost use Rattle.command_machine.specs.Replies.{Reply, Finished, Caught_up};
ghost use Rattle.command_machine.specs.ReplyText.{reply_text};
ghost use Rattle.command_machine.specs.Steps.{Steps, StepsInPart, Replies};
ghost use Rattle.command_machine.specs.Laws.{IsSure, IsUsable, MayTell, CanBatch, CanCatchUp, IsReadAgain};

/// A command, done or left on its way, leads from a lawful machine to a lawful one, and the booked
/// history only grows: what was booked stays, in its place.
pub fn steps_keep_machines_lawful()
    ensures step { (m now : Moment) (command : Command) (told : List Reply)
        → IsCommand command → IsLawful m.machine → Steps m command told now
        → IsLawful now.machine
        × Begins now.machine.world.base.booked m.machine.world.base.booked }
    ensures part { (m now : Moment) (command : Command) (told : List Reply)
        → IsCommand command → IsLawful m.machine → StepsInPart m command told now
        → IsLawful now.machine
        × Begins now.machine.world.base.booked m.machine.world.base.booked }
    ensures all { (m now : Moment) (commands : List Command) (told : List Reply)
        → All IsCommand commands → IsLawful m.machine → Replies m commands told now
        → IsLawful now.machine
        × Begins now.machine.world.base.booked m.machine.world.base.booked }
{}

/// The booked history of a lawful machine is legal: each entry could be booked in the state of those
/// before it. So no cycle is opened twice, no line is booked twice, and no serial of an editor is
/// used twice; and guide and table are sound together.
pub fn histories_are_legal()
    ensures legal { (m : Machine) → IsLawful m
        → IsLegal office_limits (entries m.world.base.booked) }
    ensures once { (m : Machine) → IsLawful m
        → AllPairs (λ e f. Repeats e f → ⊥) (entries m.world.base.booked) }
    ensures sound { (m : Machine) → IsLawful m
        → let s = state_of m in AreSound s.guide s.table }
{}

/// A command that is done has one reply; `NEXT` and `BATCH` may tell before it that the node that is
/// not the holder was left behind: that node is down, or its disk failed.
pub fn commands_have_replies()
    ensures { (m now : Moment) (command : Command) (told : List Reply)
        → IsLawful m.machine → IsCommand command → Steps m command told now
        → (before : List Reply) × (last : Reply) × (told ≡ before ++ last ∷ [])
        × MayTell m.machine command before }
{}

/// Where no disk is in doubt and none failed, a command has one outcome: its reply and the machine
/// after it.
pub fn undoubted_machines_answer_one_way()
    ensures { (m now other : Moment) (command : Command) (told others : List Reply)
        → IsSure m.machine → NoneRose m.counts now.counts → NoneRose m.counts other.counts
        → Steps m command told now → Steps m command others other
        → (told ≡ others) × (now.machine ≡ other.machine) }
{}

/// Where the holder is up and can book, nothing is pending, no disk fails and the journal has room,
/// `BATCH` books all entries that are left of the job, and its reply is that of the complete job. Before
/// it, it may tell that the other node was left behind, which is down then.
pub fn batches_complete_their_jobs()
    ensures { (m now : Moment) (job : Job) (standing : Standing) (told : List Reply)
        → IsLawful m.machine → CanBatch m.machine job
        → job_standing (state_of m.machine) job ≡ Ok standing
        → NoneRose m.counts now.counts → Steps m Batch told now
        → (before : List Reply)
        × (told ≡ before ++ Finished (state_of now.machine) job ∷ [])
        × MayTell m.machine Batch before
        × (entries now.machine.world.base.booked
        ≡ entries m.machine.world.base.booked ++ entries_left (state_of m.machine) job) }
{}

/// Where no refusal of `CATCHUP` holds and no disk fails, it tells how long the holder's journal is: the
/// other node then has that journal, and the holder's journal and the booked history are as before. And
/// wherever it tells a length, whatever the disks did, the other node has caught up.
pub fn catching_up_ends_in_step()
    ensures complete { (m now : Moment) (told : List Reply)
        → IsLawful m.machine → CanCatchUp m.machine
        → NoneRose m.counts now.counts → Steps m Catch_up told now
        → let before = m.machine.world.base in
        let after = now.machine.world.base in
        let len = length (holder_journal before) in
        (told ≡ Caught_up len ∷ []) × IsInStep now.machine.world len
        × (holder_journal after ≡ holder_journal before) × (after.booked ≡ before.booked) }
    ensures in_step { (m now : Moment) (len : ℕ)
        → IsLawful m.machine → Steps m Catch_up (Caught_up len ∷ []) now
        → IsInStep now.machine.world len }
{}

/// `BATCH` of a job that is complete, read again while the cycle of its file is kept or while its edit
/// is its editor's last, books nothing, whatever commands came between. Where the node is up and no
/// disk fails it gets the reply of the complete job, and that is the same as before, byte for byte.
pub fn repeated_jobs_get_the_same_reply()
    ensures nothing { (m now again after : Moment) (job : Job) (s : State) (told : List Reply)
        → IsReadAgain m now again job s → Steps again Batch told after
        → after.machine.world.base.booked ≡ again.machine.world.base.booked }
    ensures answered { (m now again after : Moment) (job : Job) (s : State) (told : List Reply)
        → IsReadAgain m now again job s → IsUsable again.machine
        → NoneRose again.counts after.counts → Steps again Batch told after
        → told ≡ Finished (state_of again.machine) job ∷ [] }
    ensures same { (m now again after : Moment) (job : Job) (s t : State)
        → IsReadAgain m now again job s → Steps again Batch (Finished t job ∷ []) after
        → reply_text (Finished t job) ≡ reply_text (Finished s job) }
{}
