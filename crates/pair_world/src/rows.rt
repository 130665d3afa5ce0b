//! The rows of refusals: a call can be done exactly where no refusal of its row holds.
ghost use Rattle.std.specs.Prelude.{◌≡◌, ◌≤◌, ◌<◌, ◌↔◌, ◌⊎◌, ℕ, List, length, None, Some, true, false};
ghost use Rattle.ali_base.specs.declared.names.NodeName.{NodeName};
ghost use Rattle.ali_base.specs.declared.duty.Mode.TheVariants.{Both, Alone};
ghost use Rattle.pair_world.specs.Frames.{Frame};
ghost use Rattle.pair_world.specs.World.{other, Shipment, Ack, Ships, Acks, node_at, known, is_up, World, MayHold};
ghost use Rattle.pair_world.specs.Step.{Bounds, CanWrite, CanShip, CanBook, CanLeavePair, CanPair, CanHear};
ghost use Rattle.pair_world.specs.SoundWorld.{IsSound};
ghost use Rattle.pair_world.specs.Refusals.{Refusal, Item, IsRefused, IsPassed, message_limit, needed_length, short, ready_row, ask_row, catch_up_row, shipping_row, receiving_row, write_row, ship_row, message_row, book_row, take_row, pair_row, stop_row, start_row, start_duty_row};

use crate::laws::Entries;

/// Of a row at most one refusal is told, and none where the row is passed.
pub fn refusals_are_one<L: Entries>()
    ensures one { (history : List (Frame L.Entry)) (row : List (Item L.Entry))
        (first second : Refusal) → IsRefused L.due history row first
        → IsRefused L.due history row second → first ≡ second }
    ensures none { (history : List (Frame L.Entry)) (row : List (Item L.Entry))
        (refusal : Refusal) → IsPassed L.due history row
        → IsRefused L.due history row refusal → ⊥ }
{}

/// Where no refusal of its row holds the event can be done, and only there.
pub fn rows_are_exact<L: Entries>()
    ensures write { (bounds : Bounds) (w : World L.Entry) (node : NodeName) (entry : L.Entry)
        → IsSound L.due w → IsPassed L.due w.base.booked (write_row w bounds node entry)
        ↔ ((w.register_up ≡ true) × (node ≡ w.base.duty.holder)
        × CanWrite L.due bounds w.base entry) }
    ensures ship { (w : World L.Entry) (node : NodeName) (k : ℕ) → 0 < k
        → IsPassed L.due w.base.booked (ship_row w node k)
        ↔ ((w.register_up ≡ true) × (node ≡ w.base.duty.holder) × CanShip w.base k
        × (length w.base.messages < message_limit)) }
    ensures shipment { (w : World L.Entry) (i : ℕ) (x : Shipment L.Entry)
        → IsPassed L.due w.base.booked (message_row w i (Some (Ships x)))
        ↔ ((w.register_up ≡ true) × is_up w.base (other x.sender)
        × (length w.base.messages < message_limit)
        × (known w.base (other x.sender) ≤ x.epoch)) }
    ensures ack { (w : World L.Entry) (i : ℕ) (ack : Ack)
        → IsPassed L.due w.base.booked (message_row w i (Some (Acks ack)))
        ↔ ((w.register_up ≡ true) × CanHear w.base ack) }
    ensures book { (w : World L.Entry) → IsPassed L.due w.base.booked (book_row w)
        ↔ ((w.register_up ≡ true) × CanBook w.base) }
    ensures take { (bounds : Bounds) (w : World L.Entry) (node : NodeName)
        → IsPassed L.due w.base.booked (take_row w bounds node)
        ↔ ((w.register_up ≡ true) × CanLeavePair bounds w.base node) }
    ensures pair { (bounds : Bounds) (w : World L.Entry) → IsSound L.due w
        → IsPassed L.due w.base.booked (pair_row w bounds)
        ↔ ((w.register_up ≡ true) × CanPair bounds w.base) }
    ensures stop { (w : World L.Entry) (node : NodeName)
        → IsPassed L.due w.base.booked (stop_row w node) ↔ is_up w.base node }
    ensures start { (w : World L.Entry) (node : NodeName) (journal : List (Frame L.Entry))
        → IsPassed L.due w.base.booked (start_row w node journal)
        ↔ ((w.register_up ≡ true) × ((node_at w.base.nodes node).up ≡ false)
        × (needed_length w node ≤ length journal)) }
    ensures start_duty { (w : World L.Entry)
        → IsPassed L.due w.base.booked (start_duty_row w) ↔ (w.register_up ≡ false) }
    ensures ask { (w : World L.Entry) (node : NodeName) (since : ℕ)
        → IsPassed L.due w.base.booked (ask_row w node since)
        ↔ ((w.register_up ≡ true) × is_up w.base node
        × ((node ≡ w.base.duty.holder) ⊎ (w.base.duty.mode ≡ Both))
        × (since ≤ length w.base.booked)) }
    ensures ready { (w : World L.Entry) (node : NodeName)
        → IsPassed L.due w.base.booked (ready_row w node)
        ↔ ((w.register_up ≡ true) × is_up w.base node
        × ((node ≡ w.base.duty.holder) ⊎ (w.base.duty.mode ≡ Both))) }
    ensures catch_up { (w : World L.Entry)
        → IsPassed L.due w.base.booked (catch_up_row w)
        ↔ ((w.register_up ≡ true) × is_up w.base w.base.duty.holder
        × (w.base.duty.mode ≡ Alone) × is_up w.base (other w.base.duty.holder)) }
    ensures shipping { (w : World L.Entry) (k : ℕ) → 0 < k
        → IsPassed L.due w.base.booked (shipping_row w k)
        ↔ ((w.register_up ≡ true) × CanShip w.base k) }
    ensures receiving { (w : World L.Entry) (x : Shipment L.Entry)
        → IsPassed L.due w.base.booked (receiving_row w x)
        ↔ (is_up w.base (other x.sender) × (known w.base (other x.sender) ≤ x.epoch)) }
    // SHORT never comes in a sound world: each list that the disk may hold is long enough.
    ensures short { (w : World L.Entry) (node : NodeName) (journal : List (Frame L.Entry))
        → IsSound L.due w → MayHold w node journal → short w node journal ≡ None }
{}
