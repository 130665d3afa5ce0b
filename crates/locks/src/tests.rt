ghost use Rattle.std.specs.Prelude.{◌≡◌, false};

use super::*;
use crate::small_hall::{SmallHall, Writer, book_under};
use ali_base::{Duty, Mode, NodeName};
use board::{Board, Booked, Pass};
use std::marker::Brand;
use std::process::Abort;
use std::sync::Wait;
use std::test::*;
use std::thread::{Threads, join};

/// How often each of two threads books.
const BOOKED: u32 = 1_000;

/// Any numbers.
struct Numbers;

impl Booked for Numbers {
    ghost use Rattle.std.specs.Prelude.{⊤};

    type Entry = u32;

    ghost lawful = { λ _. ⊤ };
}

const FIRST: Duty = Duty {
    epoch: 1,
    holder: NodeName::A,
    mode: Mode::Both,
    floor: 0,
};

/// Books so many entries under one lock of the hall, which is entered and left each time. The flag says that
/// each number was above the one before.
fn book_many<R: Wait>(
    rt: &R,
    hall: &SmallHall<Numbers>,
    mut pass: Pass<Numbers>,
) -> (Pass<Numbers>, bool)
    requires { pass.board ≡ hall.now.board }
    ensures { result.0.board ≡ hall.now.board }
{
    let mut lock = hall.lock();
    let mut rises = true;
    let mut last = 0;
    for _ in 0..BOOKED {
        let (next, number) = book_under::<Numbers, Brand, _, R>(rt, &hall.board, &mut lock, pass);
        pass = next;
        rises = rises && number.is_some_and(|number| last < number && number <= pass.count());
        last = number.unwrap_or(last);
    }
    (pass, rises)
}

fn two_at_once<R: Threads + Wait + Abort + Sync>(
    rt: &R,
    hall: &SmallHall<Numbers>,
    mut pass: Pass<Numbers>,
)
    requires { pass.board ≡ hall.now.board }
{
    let other = hall.board.split_pass(&mut pass);
    let ((one, one_rises), (other, other_rises)) = join(
        rt,
        move ||
            requires { pass.board ≡ hall.now.board }
            ensures { result.0.board ≡ hall.entry.now.board }
        { book_many(rt, hall, pass) },
        move ||
            requires { other.board ≡ hall.now.board }
            ensures { result.0.board ≡ hall.entry.now.board }
        { book_many(rt, hall, other) },
    );
    assert!(rt; one_rises && other_rises);
    assert_eq!(rt; hall.board.join(one, other).count(), 2 * BOOKED);
}

#[test]
fn two_book_through_one_mutex(rt: HostRuntime) -> Result<(), Fail> {
    let (hall, pass) = SmallHall::<Numbers>::open::<Brand>(rt.alloc(), FIRST, 0)?;
    two_at_once(&rt, &hall, pass);
    let SmallHall { board: _, writer } = hall;
    let Ok(writer) = writer.into_kept() else {
        panic!(&rt; "a lock was left entered");
    };
    assert_eq!(&rt; writer.main.count(), 2 * BOOKED);
    Ok(())
}

#[test]
fn an_own_lock_tells_what_was_booked(rt: HostRuntime) -> Result<(), Fail> {
    let (board, mut main) = Board::<Numbers>::new::<Brand>(rt.alloc(), FIRST, 0)?;
    let pass = board.split(&mut main);
    let mut lock = OwnLock::new(Writer { main });
    let (pass, number) = book_under::<Numbers, Brand, _, _>(&rt, &board, &mut lock, pass);
    assert!(&rt; number == Some(1));
    assert_eq!(&rt; pass.count(), 1);
    assert_eq!(&rt; lock.into_kept().main.count(), 1);
    Ok(())
}
