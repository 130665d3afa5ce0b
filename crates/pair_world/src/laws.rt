//! The laws of the world, for any kind of entries.
ghost use Rattle.std.specs.Prelude.{◌≡◌, ◌<◌, ◌≤◌, ◌↔◌, ℕ, List, length, None, true};
ghost use Rattle.ali_base.specs.declared.names.NodeName.{NodeName};
ghost use Rattle.ali_base.specs.declared.names.NodeName.TheVariants.{A, B};
ghost use Rattle.ali_base.specs.declared.duty.Mode.TheVariants.{Both};
ghost use Rattle.ali_base.specs.declared.duty.Duty.{Duty};
ghost use Rattle.pair_world.specs.Frames.{Frame, Begins, Legal, In};
ghost use Rattle.pair_world.specs.World.{Resolved, World, Choice, node_at, known, is_up, with_node, failed_write_at, term, term_from, holder_journal, other_journal, MayHold, MayRead, IsReopened, unrecovered, resolved, opened, without_doubt, formatted, with_nodes, picked_nodes};
ghost use Rattle.pair_world.specs.Step.{Event, Outcome, Done, Answered, Refused, Take, Pair_up, Bounds, Turn, ResolvedStep, Fails, Step, Runs};
ghost use Rattle.pair_world.specs.SoundWorld.{AreCounted, Invariant, IsSound};
ghost use Rattle.pair_world.specs.FaultOrigin.{ComesFrom};
ghost use Rattle.pair_world.specs.Limits.{IsEpoch, IsJournal, IsWithin};

/// What entries are, which of them may be booked next after which, and how a request is answered from a history.
pub trait Entries {
    type Entry;

    type Request;

    type Reply;

    ghost due: { List Self.Entry → Self.Entry → Type 0 };

    ghost form: { List Self.Entry → Self.Request → Self.Reply };
}

/// The world of formatted disks is sound, and from every sound world each step and each schedule leads to a
/// sound world: whatever is lost, repeated or reordered, whatever device fails, and wherever a run is cut off.
pub fn worlds_stay_sound<L: Entries>()
    ensures first { IsSound L.due (without_doubt formatted) }
    ensures step { (bounds : Bounds) (w v : World L.Entry) (event : Event L.Entry L.Request)
        (outcome : Outcome L.Reply)
        → IsSound L.due w → Step L.due L.form bounds w event outcome v → IsSound L.due v }
    ensures schedule { (bounds : Bounds) (w v : World L.Entry)
        (turns : List (Turn L.Entry L.Request L.Reply))
        → IsSound L.due w → Runs L.due L.form bounds w turns v → IsSound L.due v }
    // While the register is up, the nine parts of each resolution are all that is asked.
    ensures exact { (w : World L.Entry) → w.register_up ≡ true → w.failed_duty ≡ None
        → ((node : NodeName) → is_up w.base node → failed_write_at w.failed_writes node ≡ None)
        → ((choice : Choice) → Invariant L.due (resolved choice w)) → IsSound L.due w }
{}

/// The booked history only grows. A takeover books all of the taker's journal, which begins with the history
/// before it. Where a pair is made, both journals are the history.
pub fn history_only_grows<L: Entries>()
    ensures step { (bounds : Bounds) (w v : World L.Entry) (event : Event L.Entry L.Request)
        (outcome : Outcome L.Reply)
        → IsSound L.due w → Step L.due L.form bounds w event outcome v
        → Begins v.base.booked w.base.booked }
    ensures schedule { (bounds : Bounds) (w v : World L.Entry)
        (turns : List (Turn L.Entry L.Request L.Reply))
        → IsSound L.due w → Runs L.due L.form bounds w turns v
        → Begins v.base.booked w.base.booked }
    ensures takeover { (bounds : Bounds) (w v : World L.Entry) (node : NodeName)
        → IsSound L.due w → Step L.due L.form bounds w (Take node) Done v
        → (v.base.booked ≡ (node_at w.base.nodes node).journal)
        × Begins v.base.booked w.base.booked }
    ensures pair { (bounds : Bounds) (w v : World L.Entry) (choice : Choice)
        → IsSound L.due w → Step L.due L.form bounds w Pair_up Done v
        → (holder_journal (resolved choice v) ≡ v.base.booked)
        × (other_journal (resolved choice v) ≡ v.base.booked) }
    // Where the end of the holder's whole journal is acknowledged, the other node has caught up.
    ensures caught_up { (w : Resolved L.Entry) → Invariant L.due w
        → length (holder_journal w) < w.ended
        → other_journal w ≡ holder_journal w }
{}

/// A resolved world holds no doubt about a disk, and an event that is done is done in each resolution. After a
/// fault each resolution comes from one before it, by at most the event, a node's going down and a recovery.
pub fn faults_come_from_steps<L: Entries>()
    ensures alike { (bounds : Bounds) (w : World L.Entry) (event : Event L.Entry L.Request)
        (done : Resolved L.Entry) (choice : Choice)
        → IsSound L.due w → ResolvedStep L.due bounds w.base event done
        → ResolvedStep L.due bounds (unrecovered choice w) event
        (with_nodes done (picked_nodes choice w.failed_writes done.nodes)) }
    ensures origin { (bounds : Bounds) (w v : World L.Entry) (event : Event L.Entry L.Request)
        (choice : Choice)
        → IsSound L.due w → Fails L.due bounds w event v → ComesFrom L.due bounds event w v choice }
    ensures parts { (bounds : Bounds) (w v : World L.Entry) (event : Event L.Entry L.Request)
        (choice : Choice)
        → IsSound L.due w → Fails L.due bounds w event v → Invariant L.due (resolved choice v) }
{}

/// What a run finds after a halt has the invariant, and its history begins with the one before: whichever list
/// each disk represents.
pub fn crashes_lose_nothing<L: Entries>()
    ensures opened { (w : Resolved L.Entry) → Invariant L.due w
        → Invariant L.due (opened w.duty w.past w.nodes.a.journal w.nodes.b.journal) }
    ensures reopened { (w : World L.Entry) (duty : Duty) (past : List Duty)
        (journal_a journal_b : List (Frame L.Entry))
        → IsSound L.due w → MayRead w duty past → MayHold w A journal_a → MayHold w B journal_b
        → Invariant L.due (opened duty past journal_a journal_b)
        × Begins (opened duty past journal_a journal_b).booked w.base.booked }
    // The same of the world as a run finds it: it is sound, and loses nothing.
    ensures sound { (w v : World L.Entry) → IsSound L.due w → IsReopened w v
        → IsSound L.due v × Begins v.base.booked w.base.booked }
    // A world without doubt is sound exactly where it has the invariant.
    ensures without_doubt { (w : Resolved L.Entry)
        → IsSound L.due (without_doubt w) ↔ Invariant L.due w }
{}

/// A sound world itself has the invariant, each disk taken as before its failed write. So its booked history is
/// legal, and in mode Both each journal begins with it.
pub fn sound_worlds_are_legal<L: Entries>()
    ensures base { (w : World L.Entry) → IsSound L.due w → Invariant L.due w.base }
    ensures legal { (w : World L.Entry) → IsSound L.due w → Legal L.due w.base.booked }
    ensures both { (w : World L.Entry) (node : NodeName) (journal : List (Frame L.Entry))
        → IsSound L.due w → w.base.duty.mode ≡ Both → MayHold w node journal
        → Begins journal w.base.booked }
{}

/// A refusal changes nothing but a known epoch, which may rise, and an answer changes nothing.
pub fn refusals_change_nothing<L: Entries>()
    ensures refused { (bounds : Bounds) (w v : World L.Entry) (event : Event L.Entry L.Request)
        → Step L.due L.form bounds w event Refused v
        → (node : NodeName) × (epoch : ℕ) × (known w.base node ≤ epoch)
        × (v ≡ record w {
          base = with_node w.base node
              (record (node_at w.base.nodes node) { known = epoch });
        }) }
    ensures answered { (bounds : Bounds) (w v : World L.Entry) (event : Event L.Entry L.Request)
        (reply : L.Reply)
        → Step L.due L.form bounds w event (Answered reply) v → v ≡ w }
{}

/// No journal grows beyond its limit, no epoch beyond the last one, and no message tells of more.
pub fn limits_hold<L: Entries>()
    ensures first { (bounds : Bounds) → 1 ≤ bounds.last_epoch
        → IsWithin {E = L.Entry} bounds (without_doubt formatted) }
    ensures step { (bounds : Bounds) (w v : World L.Entry) (event : Event L.Entry L.Request)
        (outcome : Outcome L.Reply)
        → IsWithin bounds w → Step L.due L.form bounds w event outcome v → IsWithin bounds v }
    ensures schedule { (bounds : Bounds) (w v : World L.Entry)
        (turns : List (Turn L.Entry L.Request L.Reply))
        → IsWithin bounds w → Runs L.due L.form bounds w turns v → IsWithin bounds v }
    // What a run finds is within the limits where each disk's list is.
    ensures opened { (bounds : Bounds) (duty : Duty) (past : List Duty)
        (journal_a journal_b : List (Frame L.Entry))
        → IsEpoch bounds duty.epoch → IsJournal bounds journal_a → IsJournal bounds journal_b
        → IsWithin bounds (without_doubt (opened duty past journal_a journal_b)) }
    // A step within smaller limits is one within larger limits.
    ensures larger { (small large : Bounds) (w v : World L.Entry)
        (event : Event L.Entry L.Request) (outcome : Outcome L.Reply)
        → small.frames ≤ large.frames → small.last_epoch ≤ large.last_epoch
        → Step L.due L.form small w event outcome v → Step L.due L.form large w event outcome v }
{}

/// The epochs of the term, the longest run of last duties with one holder, are those from its first to the present one.
pub fn terms_have_no_gaps()
    ensures { (duty : Duty) (past : List Duty) (epoch : ℕ) → AreCounted duty past
        → ((one : Duty) × In (term duty past) one × (one.epoch ≡ epoch))
        ↔ ((term_from duty past ≤ epoch) × (epoch ≤ duty.epoch)) }
{}
