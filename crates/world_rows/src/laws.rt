//! Laws of rows, for whoever reads the definitions.
ghost use Rattle.std.specs.Prelude.{◌≡◌, ◌<◌, ◌↔◌, ℕ, List, Bool};
ghost use Rattle.ali_base.specs.declared.names.DiskName.{DiskName};
ghost use Rattle.ali_base.specs.declared.names.NodeName.{NodeName};
ghost use Rattle.office_entry.specs.Entries.{IsEntry};
ghost use Rattle.office_entry.specs.declared.entry.Entry.{Entry};
ghost use Rattle.office_state.specs.declared.limits.Limits.{Limits};
ghost use Rattle.office_state.specs.History.{IsLegal};
ghost use Rattle.pair_world.specs.Frames.{Frame, Begins, Legal, entries};
ghost use Rattle.pair_world.specs.Step.{Bounds, Write, Ship, Deliver, Take, Go_alone, Pair_up, Book, Stop, Start, Start_duty, Ask};
ghost use Rattle.pair_world.specs.World.{World};
ghost use Rattle.world_rows.specs.Counts.{Counts, NoneRose};
ghost use Rattle.world_rows.specs.Histories.{due_after, IsLawful};
ghost use Rattle.world_rows.specs.Rows.{Row, Gives};
ghost use Rattle.world_rows.specs.Told.{Told, Failed};
ghost use Rattle.world_rows.specs.WorldRows.{ready_row, write_row, book_row, stop_row, start_row, ship_row, deliver_row, take_row, alone_row, pair_row, start_duty_row};
ghost use Rattle.world_rows.specs.WorldSteps.{OfficeEvent, IsStep};

/// What a row gives is a step of the world: the event is done, or its device failed, or nothing
/// changes. Making a table ready is no step, and a fault in it is one of a request.
pub fn rows_are_steps()
    // That the entry has what an entry has, no refusal of the row says.
    ensures write { (limits : Limits) (bounds : Bounds) (before now : Counts)
        (w v : World Entry) (node : NodeName) (entry : Entry) (told : Told)
        → IsLawful limits bounds w → IsEntry entry
        → Gives before now Failed w (write_row limits w bounds node entry) told v
        → IsStep limits bounds w (Write entry) told v }
    ensures book { (limits : Limits) (bounds : Bounds) (before now : Counts)
        (w v : World Entry) (told : Told)
        → IsLawful limits bounds w
        → Gives before now Failed w (book_row limits w) told v
        → IsStep limits bounds w Book told v }
    ensures stop { (limits : Limits) (bounds : Bounds) (before now : Counts)
        (w v : World Entry) (node : NodeName) (told : Told)
        → Gives before now Failed w (stop_row limits w node) told v
        → IsStep limits bounds w (Stop node) told v }
    ensures start { (limits : Limits) (bounds : Bounds) (before now : Counts)
        (w v : World Entry) (node : NodeName) (lasted : Bool) (told : Told)
        → IsLawful limits bounds w
        → Gives before now Failed w (start_row limits w node lasted) told v
        → IsStep limits bounds w (Start node) told v }
    ensures ship { (limits : Limits) (bounds : Bounds) (before now : Counts)
        (w v : World Entry) (node : NodeName) (k : ℕ) (told : Told)
        → 0 < k → Gives before now Failed w (ship_row limits w node k) told v
        → IsStep limits bounds w (Ship k) told v }
    ensures deliver { (limits : Limits) (bounds : Bounds) (before now : Counts)
        (w v : World Entry) (i : ℕ) (told : Told)
        → Gives before now Failed w (deliver_row limits w i) told v
        → IsStep limits bounds w (Deliver i) told v }
    ensures take { (limits : Limits) (bounds : Bounds) (before now : Counts)
        (w v : World Entry) (node : NodeName) (told : Told)
        → Gives before now Failed w (take_row limits w bounds node) told v
        → IsStep limits bounds w (Take node) told v }
    ensures alone { (limits : Limits) (bounds : Bounds) (before now : Counts)
        (w v : World Entry) (told : Told)
        → Gives before now Failed w (alone_row limits w bounds) told v
        → IsStep limits bounds w Go_alone told v }
    ensures pair { (limits : Limits) (bounds : Bounds) (before now : Counts)
        (w v : World Entry) (told : Told)
        → IsLawful limits bounds w
        → Gives before now Failed w (pair_row limits w bounds) told v
        → IsStep limits bounds w Pair_up told v }
    ensures start_duty { (limits : Limits) (bounds : Bounds) (before now : Counts)
        (w v : World Entry) (lasted : Bool) (told : Told)
        → Gives before now Failed w (start_duty_row limits w lasted) told v
        → IsStep limits bounds w Start_duty told v }
    ensures ready { (limits : Limits) (bounds : Bounds) (before now : Counts)
        (w v : World Entry) (node : NodeName) (tn : List ℕ) (since : ℕ) (told : Told)
        → Gives before now Failed w (ready_row limits w node) told v
        → (v ≡ w → ⊥) → IsStep limits bounds w (Ask node tn since) told v }
{}

/// A step leads from a lawful world to a lawful one, and the booked history only grows.
pub fn steps_keep_worlds_lawful()
    ensures lawful { (limits : Limits) (bounds : Bounds) (w v : World Entry)
        (event : OfficeEvent) (told : Told)
        → IsLawful limits bounds w → IsStep limits bounds w event told v
        → IsLawful limits bounds v }
    ensures grows { (limits : Limits) (bounds : Bounds) (w v : World Entry)
        (event : OfficeEvent) (told : Told)
        → IsLawful limits bounds w → IsStep limits bounds w event told v
        → Begins v.base.booked w.base.booked }
    ensures legal { (limits : Limits) (bounds : Bounds) (w : World Entry)
        → IsLawful limits bounds w → IsLegal limits (entries w.base.booked) }
{}

/// A history of frames is legal in the replicated world exactly where that of its entries is legal in
/// the office.
pub fn histories_are_legal_alike()
    ensures { (limits : Limits) (frames : List (Frame Entry))
        → Legal (due_after limits) frames ↔ IsLegal limits (entries frames) }
{}

/// Where no disk failed, a row gives one reply and leaves one thing.
pub fn rows_give_one_reply<R, W>()
    ensures { (before now : Counts) (failure : DiskName → R) (row : Row R W) (w left other : W)
        (reply again : R)
        → NoneRose before now
        → Gives before now failure w row reply left → Gives before now failure w row again other
        → (reply ≡ again) × (left ≡ other) }
{}
