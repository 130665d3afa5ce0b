//! What a call of a node, or of the pair of two nodes, is in the world.
ghost use Rattle.std.specs.Prelude.{◌≡◌, ◌<◌, ◌≤◌, ◌↔◌, ◌⊎◌, ◌∷◌, [], ◌++◌, ℕ, suc, List, length, Some, None, Bool, true};
ghost use Rattle.ali_base.specs.declared.duty.Duty.{Duty};
ghost use Rattle.pair_world.specs.Frames.{Frame, Begins, item_at};
ghost use Rattle.pair_world.specs.World.{other, Shipment, Ships, told_by, known, is_up, World, MayRead, MayList, duty_list, opened, opened_from};
ghost use Rattle.pair_world.specs.Deliveries.{Told_stale, Told_behind, told_as, answer, Behind, ack_end, journal_left};
ghost use Rattle.pair_world.specs.Changes.{journal_stored, shipment};
ghost use Rattle.pair_world.specs.Replies.{receiver, said, state_left, receiver_changed, receiver_answered};
ghost use Rattle.pair_world.specs.Step.{Event, Deliver, Halted, Bounds, WorldStep, Refuses, HearsEpoch, IsBehind, CanShip, CanStore, Halts, Turn, Runs};
ghost use Rattle.pair_world.specs.SoundWorld.{IsSound};
ghost use Rattle.pair_world.specs.Passing.{passes, passes_acked, passes_refused, passed, passed_acked};
ghost use Rattle.pair_world.specs.Moments.{IsMoment, IsMomentIn};

use crate::laws::Entries;

/// The duties of an image are one list, the oldest first; the world has the present one and those before it, the
/// newest first. A run opens the same world over either.
pub fn duties_are_one_list<L: Entries>()
    ensures next { (duty next : Duty) (past : List Duty)
        → duty_list next (duty ∷ past) ≡ duty_list duty past ++ next ∷ [] }
    ensures opened { (duty : Duty) (past : List Duty) (journal_a journal_b : List (Frame L.Entry))
        → opened_from (duty_list duty past) journal_a journal_b
        ≡ opened duty past journal_a journal_b }
    ensures read { (w : World L.Entry) (duty : Duty) (past : List Duty)
        → MayRead w duty past ↔ MayList w (duty_list duty past) }
    ensures list { (w : World L.Entry) (duties : List Duty) → MayList w duties
        → (duty : Duty) × (past : List Duty)
        × (duty_list duty past ≡ duties) × MayRead w duty past }
{}

/// A delivery is answered as the receiver alone answers it, and leaves it as that leaves it.
pub fn deliveries_are_the_receivers<L: Entries>()
    // STALE: nothing changes.
    ensures stale { (w v : World L.Entry) (i : ℕ) (x : Shipment L.Entry)
        → item_at w.base.messages i ≡ Some (Ships x) → x.epoch < known w.base (other x.sender)
        → (said w.base x ≡ Told_stale x.epoch (known w.base (other x.sender)))
        × (state_left (receiver w.base x) (told_by x) ≡ receiver w.base x)
        × (Refuses {Q = L.Request} w (Deliver i) v → v ≡ w) }
    // BEHIND: the known epoch rises, and nothing else changes.
    ensures behind { (w : World L.Entry) (i : ℕ) (x : Shipment L.Entry)
        → item_at w.base.messages i ≡ Some (Ships x) → w.register_up ≡ true → IsBehind w.base x
        → (said w.base x
        ≡ Told_behind (length (receiver w.base x).journal) (suc x.preceding))
        × (journal_left (receiver w.base x).known (receiver w.base x).journal (told_by x)
        ≡ (receiver w.base x).journal)
        × HearsEpoch {Q = L.Request} w (Deliver i)
        (record w { base = receiver_changed w.base x }) }
    // A delivery that is not refused is answered BEHIND, or is done.
    ensures either { (w : World L.Entry) (x : Shipment L.Entry)
        → is_up w.base (other x.sender) → known w.base (other x.sender) ≤ x.epoch
        → IsBehind w.base x ⊎ CanStore w.base x }
    // All other answers: the delivery is done.
    ensures done { (bounds : Bounds) (w : World L.Entry) (i : ℕ) (x : Shipment L.Entry)
        → item_at w.base.messages i ≡ Some (Ships x) → w.register_up ≡ true → CanStore w.base x
        → (said w.base x
        ≡ told_as (receiver w.base x).journal (told_by x)
        (answer (receiver w.base x).journal (told_by x)))
        × (answer (receiver w.base x).journal (told_by x) ≡ Behind → ⊥)
        × (journal_stored w.base x ≡ (state_left (receiver w.base x) (told_by x)).journal)
        × WorldStep {Q = L.Request} L.due bounds w (Deliver i)
        (record w { base = receiver_answered w.base x }) }
{}

/// At each moment of an event each disk may represent any list that it has before it, or after a fault of it,
/// whatever the other disks represent. A run that begins then begins after a halt of the event: so it finds a
/// sound world, and nothing that was booked is lost.
pub fn moments_are_halts<L: Entries>()
    ensures event { (bounds : Bounds) (w v : World L.Entry) (event : Event L.Entry L.Request)
        → IsSound L.due w → IsMoment L.due bounds w event v → Halts L.due bounds w event v }
    ensures course { (bounds : Bounds) (w v : World L.Entry)
        (turns : List (Turn L.Entry L.Request L.Reply)) (event : Event L.Entry L.Request)
        → IsSound L.due w → IsMomentIn L.due L.form bounds w turns event v
        → Runs L.due L.form bounds w (turns ++ record { event = event; outcome = Halted } ∷ []) v }
    ensures sound { (bounds : Bounds) (w v : World L.Entry)
        (turns : List (Turn L.Entry L.Request L.Reply)) (event : Event L.Entry L.Request)
        → IsSound L.due w → IsMomentIn L.due L.form bounds w turns event v
        → IsSound L.due v × Begins v.base.booked w.base.booked }
{}

/// Passing frame k on for a course of events is to ship it, to deliver it, to deliver the acknowledgement where one
/// was made, and to drop both. The list of messages is then as before, so all others keep their numbers.
pub fn passing_on_is_a_course<L: Entries>()
    ensures acked { (bounds : Bounds) (w : World L.Entry) (k : ℕ) (end : Bool)
        → w.register_up ≡ true → CanShip w.base k → CanStore w.base (shipment w.base k)
        → ack_end (answer (receiver w.base (shipment w.base k)).journal
        (told_by (shipment w.base k))) ≡ Some end
        → Runs L.due L.form bounds w (passes_acked k (length w.base.messages))
        (passed_acked w k end) }
    ensures cut { (bounds : Bounds) (w : World L.Entry) (k : ℕ)
        → w.register_up ≡ true → CanShip w.base k → CanStore w.base (shipment w.base k)
        → ack_end (answer (receiver w.base (shipment w.base k)).journal
        (told_by (shipment w.base k))) ≡ None
        → Runs L.due L.form bounds w (passes k (length w.base.messages)) (passed w k) }
    ensures behind { (bounds : Bounds) (w : World L.Entry) (k : ℕ)
        → w.register_up ≡ true → CanShip w.base k → IsBehind w.base (shipment w.base k)
        → Runs L.due L.form bounds w (passes_refused k (length w.base.messages)) (passed w k) }
    ensures stale { (bounds : Bounds) (w : World L.Entry) (k : ℕ)
        → w.register_up ≡ true → CanShip w.base k
        → Runs L.due L.form bounds w (passes_refused k (length w.base.messages)) w }
{}
