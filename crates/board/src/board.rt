//! The board: its word, and each step on it.
ghost use Rattle.std.specs.Prelude.{◌≡◌, ◌+◌, ◌<◌, ◌≤◌, ◌++◌, length, IfOk};
ghost use mathlib.Core.List.{IsPrefix};
ghost use Rattle.board.specs.FrontWord.{front_under, IsNoEarlier};
ghost use Rattle.board.specs.declared.front.TheConstants.{MOST_BOOKED};

use crate::front::Front;
use crate::named::{Booked, Named};
use crate::pass::{Main, Pass};
use crate::plays::{Beside, Booking, Comparing, Copying, Looking, Meeting, Noting, Opening};
use crate::view::BoardTable;
use ali_base::{Duty, NoMemory};
use atomic_table::Table;
use std::alloc::Global;
use std::marker::{Model, PhantomData};

/// The booked history of a running office, which only grows, and the present duty. Threads share both
/// as one word. No call waits, and none but `new` takes memory.
#[derive(Drop)]
pub struct Board<T: Booked> {
    table: BoardTable<T>,
}

impl<T: Booked> Model for Board<T> {
    ghost use Rattle.std.specs.Prelude.{◌≡◌};
    ghost use Rattle.atomic_table.specs.Seated.{TableId};

    ghost Value = { TableId };

    ghost view = { λ b. b.table.shared.table_id };

    ghost invariant = { λ b. b.table.shared.table_id.words ≡ 1 };
}

impl<T: Booked> Board<T> {
    /// A board under this duty with the history that N names, which has `count` entries.
    pub fn new<N: Named<T::Entry>>(
        alloc: Global,
        duty: Duty,
        count: u32,
    ) -> Result<(Board<T>, Main<T>), NoMemory>
        requires lawful { T.lawful N.entries }
        requires count { (length N.entries ≡ count) × (count ≤ MOST_BOOKED) }
        ensures { IfOk result
            (λ made. made.1 ≡ record { board = made.0; list = N.entries; duty = duty }) }
    {
        let (table, mut seat) = Table::of_words(alloc, &[0], &())?;
        let word = Front::under(&duty, count).word();
        table.shared.store::<Opening<N>>(&mut seat, 0, word);
        let main = Main {
            seat,
            duty,
            count,
            of: PhantomData,
        };
        Ok((Board { table }, main))
    }

    /// Adds the entry that N names to Main's list, and answers the list's new length.
    pub fn book<N: Named<T::Entry>>(&self, main: &mut Main<T>) -> u32
        requires board { main.old.board ≡ self.now }
        requires one { length N.entries ≡ 1 }
        requires room { length main.old.list < MOST_BOOKED }
        requires lawful { T.lawful (main.old.list ++ N.entries) }
        ensures main { main.new ≡ record main.old { list = main.old.list ++ N.entries } }
        ensures length { result ≡ length main.new.list }
    {
        self.table
            .shared
            .fetch_add::<Booking<N>>(&mut main.seat, 0, 1);
        main.count += 1;
        main.count
    }

    /// Sets the duty, which is of the next epoch. Main's list stays.
    pub fn note(&self, main: &mut Main<T>, duty: Duty)
        requires board { main.old.board ≡ self.now }
        requires next { duty.epoch ≡ main.old.duty.epoch + 1 }
        ensures { main.new ≡ record main.old { duty = duty } }
    {
        let before = Front::under(&main.duty, main.count).word();
        let after = Front::under(&duty, main.count).word();
        self.table
            .shared
            .fetch_add::<Noting>(&mut main.seat, 0, after - before);
        main.duty = duty;
    }

    /// A pass that has seen what Main has.
    pub fn split(&self, main: &mut Main<T>) -> Pass<T>
        requires board { main.old.board ≡ self.now }
        ensures main { main.new ≡ main.old }
        ensures board { result.board ≡ self.now }
        ensures list { result.list ≡ main.old.list }
        ensures front { result.front ≡ front_under main.old.duty (length main.old.list) }
    {
        let seat = self.table.shared.split_seat::<Copying>(&mut main.seat);
        Pass {
            seat,
            count: main.count,
            of: PhantomData,
        }
    }

    /// Another pass that has seen the same.
    pub fn split_pass(&self, pass: &mut Pass<T>) -> Pass<T>
        requires board { pass.old.board ≡ self.now }
        ensures pass { pass.new ≡ pass.old }
        ensures copy { result ≡ pass.old }
    {
        let seat = self.table.shared.split_seat::<Copying>(&mut pass.seat);
        Pass {
            seat,
            count: pass.count,
            of: PhantomData,
        }
    }

    /// The duty and the length of the board's list at this moment. The pass has seen that list then, and
    /// tells this front from then on.
    pub fn load(&self, pass: &mut Pass<T>) -> Front
        requires board { pass.old.board ≡ self.now }
        ensures board { pass.new.board ≡ self.now }
        ensures begins { IsPrefix pass.old.list pass.new.list }
        ensures count { result.count ≡ length pass.new.list }
        ensures front { pass.new.front ≡ result }
        ensures later { IsNoEarlier pass.old.front result }
        ensures lawful { T.lawful pass.new.list }
    {
        let word = self.table.shared.load::<Looking<T>>(&mut pass.seat, 0);
        let front = Front::shown_by(word);
        pass.count = front.count;
        front
    }

    /// A pass that has seen what both have. It tells the front of `one`.
    pub fn join(&self, one: Pass<T>, other: Pass<T>) -> Pass<T>
        requires one { one.board ≡ self.now }
        requires other { other.board ≡ self.now }
        ensures board { result.board ≡ self.now }
        ensures one { IsPrefix one.list result.list }
        ensures other { IsPrefix other.list result.list }
        ensures front { result.front ≡ one.front }
        ensures lawful { T.lawful result.list }
    {
        let Pass {
            mut seat,
            count: _,
            of,
        } = one;
        let Pass {
            seat: second,
            count: _,
            of: _,
        } = other;
        self.table.shared.join_seat::<Beside>(&mut seat, second);
        let word = self.table.shared.load::<Comparing<T>>(&mut seat, 0);
        Pass {
            seat,
            count: Front::shown_by(word).count,
            of,
        }
    }

    /// Main's list begins with what the pass has seen, and the front of the pass is no later than Main's.
    pub fn meet(&self, main: &mut Main<T>, pass: &mut Pass<T>)
        requires main { main.old.board ≡ self.now }
        requires pass { pass.old.board ≡ self.now }
        ensures main { main.new ≡ main.old }
        ensures pass { pass.new ≡ pass.old }
        ensures begins { IsPrefix pass.old.list main.old.list }
        ensures front { IsNoEarlier pass.old.front
            (front_under main.old.duty (length main.old.list)) }
    {
        let copy = self.table.shared.split_seat::<Copying>(&mut pass.seat);
        self.table.shared.join_seat::<Beside>(&mut main.seat, copy);
        self.table.shared.load::<Meeting>(&mut main.seat, 0);
    }
}
