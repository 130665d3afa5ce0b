ghost use Rattle.std.specs.Prelude.{◌≡◌, ◌+◌, ◌≤◌, length};

use super::*;
use ali_base::{Duty, Mode, NodeName};
use std::marker::Brand;
use std::process::Abort;
use std::test::*;
use std::thread::{Threads, join};

/// How many entries are booked while others look.
const BOOKED: u32 = 10_000;

/// How often each of those others looks.
const LOOKS: u32 = 4_000;

/// Numbers below a million.
struct Numbers;

impl Booked for Numbers {
    ghost use Rattle.std.specs.Prelude.{◌<◌, All};

    type Entry = u32;

    ghost lawful = { All (λ x. x < 1000000) };
}

const FIRST: Duty = Duty {
    epoch: 1,
    holder: NodeName::A,
    mode: Mode::Both,
    floor: 0,
};

const SECOND: Duty = Duty {
    epoch: 2,
    holder: NodeName::B,
    mode: Mode::Alone,
    floor: 2,
};

/// Books so many entries, each the number of those before it. The flag says that each answer was one more
/// than the one before.
fn book_many(board: &Board<Numbers>, mut main: Main<Numbers>, many: u32) -> (Main<Numbers>, bool)
    requires board { main.board ≡ board.now }
    requires room { length main.list + many ≤ 1000000 }
    ensures board { result.0.board ≡ board.now }
    ensures length { length result.0.list ≡ length main.list + many }
    ensures duty { result.0.duty ≡ main.duty }
{
    let mut each_one_more = true;
    for _ in 0..many {
        let before = main.count();
        let after = board.book::<Brand>(&mut main);
        each_one_more = each_one_more && after - before == 1;
    }
    (main, each_one_more)
}

/// Loads again and again, splits and joins. The flag says that no count fell, that none was above what is
/// booked in the end, and that a copy and a joined pass had seen as much.
fn watch(board: &Board<Numbers>, mut pass: Pass<Numbers>, turns: u32) -> (Pass<Numbers>, bool)
    requires { pass.board ≡ board.now }
    ensures { result.0.board ≡ board.now }
{
    let mut sound = true;
    let mut last = pass.count();
    for _ in 0..turns {
        let mut copy = board.split_pass(&mut pass);
        sound = sound && copy.count() == last;
        let front = board.load(&mut pass);
        let later = board.load(&mut copy);
        sound = sound && last <= front.count && front.count <= later.count;
        pass = board.join(pass, copy);
        last = pass.count();
        sound = sound && later.count <= last && last <= BOOKED && front.epoch == 1;
    }
    (pass, sound)
}

/// One books while three look. The passes of the three, joined, have no more than Main.
fn all_at_once<R: Threads + Abort + Sync>(rt: &R, board: &Board<Numbers>, mut main: Main<Numbers>)
    requires { (main.board ≡ board.now) × (length main.list ≡ 0) }
{
    let mut a = board.split(&mut main);
    let b = board.split(&mut main);
    let c = board.split_pass(&mut a);
    let (((mut main, each_one_more), (a, a_sound)), ((b, b_sound), (c, c_sound))) = join(
        rt,
        move ||
            requires { (main.board ≡ board.now) × (length main.list ≡ 0) × (a.board ≡ board.now) }
            ensures { (result.0.0.board ≡ board.entry.now) × (length result.0.0.list ≡ 10000) × (result.1.0.board ≡ board.entry.now) }
        {
            join(
                rt,
                move ||
                    requires { (main.board ≡ board.now) × (length main.list ≡ 0) }
                    ensures { (result.0.board ≡ board.entry.now) × (length result.0.list ≡ 10000) }
                { book_many(board, main, BOOKED) },
                move ||
                    requires { a.board ≡ board.now }
                    ensures { result.0.board ≡ board.entry.now }
                { watch(board, a, LOOKS) },
            )
        },
        move ||
            requires { (b.board ≡ board.now) × (c.board ≡ board.now) }
            ensures { (result.0.0.board ≡ board.entry.now) × (result.1.0.board ≡ board.entry.now) }
        {
            join(
                rt,
                move ||
                    requires { b.board ≡ board.now }
                    ensures { result.0.board ≡ board.entry.now }
                { watch(board, b, LOOKS) },
                move ||
                    requires { c.board ≡ board.now }
                    ensures { result.0.board ≡ board.entry.now }
                { watch(board, c, LOOKS) },
            )
        },
    );
    assert!(rt; each_one_more && a_sound && b_sound && c_sound);
    assert_eq!(rt; main.count(), BOOKED);
    let mut all = board.join(board.join(a, b), c);
    board.meet(&mut main, &mut all);
    assert_eq!(rt; all.count(), BOOKED);
}

#[test]
fn one_books_while_three_look(rt: HostRuntime) -> Result<(), Fail> {
    let (board, main) = Board::<Numbers>::new::<Brand>(rt.alloc(), FIRST, 0)?;
    all_at_once(&rt, &board, main);
    Ok(())
}

/// Loads by the first pass, copies it, and joins the copy to the second. What that gives tells the front that
/// was loaded.
fn loaded_and_joined(
    board: &Board<Numbers>,
    mut first: Pass<Numbers>,
    second: Pass<Numbers>,
) -> (Pass<Numbers>, Front)
    requires { (first.board ≡ board.now) × (second.board ≡ board.now) }
    ensures { result.0.front ≡ result.1 }
{
    let front = board.load(&mut first);
    let copy = board.split_pass(&mut first);
    (board.join(copy, second), front)
}

#[test]
fn a_pass_tells_the_front_that_it_loaded_last(rt: HostRuntime) -> Result<(), Fail> {
    let (board, main) = Board::<Numbers>::new::<Brand>(rt.alloc(), FIRST, 0)?;
    let (mut main, _) = book_many(&board, main, 2);
    let mut early = board.split(&mut main);
    let late = board.split_pass(&mut early);
    board.note(&mut main, SECOND);
    assert!(rt; main.duty() == SECOND);
    assert_eq!(rt; early.count(), 2);
    let (joined, front) = loaded_and_joined(&board, late, early);
    assert!(rt; front == Front::under(&SECOND, 2));
    assert_eq!(rt; joined.count(), 2);
    Ok(())
}

#[test]
fn each_duty_has_its_word(rt: HostRuntime) -> Result<(), Fail> {
    let duties = [
        (NodeName::A, Mode::Both),
        (NodeName::B, Mode::Both),
        (NodeName::A, Mode::Alone),
        (NodeName::B, Mode::Alone),
    ];
    let words = [0x1C00_0005u64, 0x1D00_0005, 0x1E00_0005, 0x1F00_0005];
    for k in 0..duties.len() {
        let (holder, mode) = duties[k];
        let front = Front {
            epoch: 7,
            holder,
            mode,
            count: 5,
        };
        assert_eq!(&rt; front.word(), words[k]);
    }
    let last = Front {
        epoch: u32::MAX,
        holder: NodeName::B,
        mode: Mode::Alone,
        count: MOST_BOOKED,
    };
    assert_eq!(&rt; last.word(), 0x03FF_FFFF_FF0F_4240);
    assert!(&rt; Front::shown_by(last.word()) == last);
    Ok(())
}
