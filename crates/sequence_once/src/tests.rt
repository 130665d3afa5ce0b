use super::*;
use ali_base::{Company, Cycle, NoMemory};
use std::alloc::Global;
use std::test::Fail;

// The first example of FIPS 180-4.
#[test]
fn digest_is_that_of_the_standard(rt: HostRuntime) {
    let abc = [
        0xba, 0x78, 0x16, 0xbf, 0x8f, 0x01, 0xcf, 0xea, 0x41, 0x41, 0x40, 0xde, 0x5d, 0xae, 0x22,
        0x23, 0xb0, 0x03, 0x61, 0xa3, 0x96, 0x17, 0x7a, 0x9c, 0xb4, 0x10, 0xff, 0x61, 0xf2, 0x00,
        0x15, 0xad,
    ];
    assert_eq!(rt; digest(b"abc"), abc);
}

// Opens a file with so many lines, where it is new.
fn open_new(
    cycles: &mut Cycles,
    alloc: Global,
    company: Company,
    cycle: Cycle,
    count: u32,
) -> Result<bool, NoMemory> {
    let sent = digest(&cycle.text());
    if let Ok(Standing::New) = cycles.standing(company, cycle, &sent) {
        cycles.open(alloc, company, cycle, count, &sent)?;
        return Ok(true);
    }
    Ok(false)
}

// A company's files one after the other: those that are missing, changed and too old.
#[test]
fn files_come_in_the_order_of_their_cycles(rt: HostRuntime) -> Result<(), Fail> {
    let company = Company::read(b"ABC01").expect(&rt, "a company");
    let first = Cycle::new(1).expect(&rt, "a cycle");
    let second = Cycle::new(2).expect(&rt, "a cycle");
    let third = Cycle::new(3).expect(&rt, "a cycle");
    let mut cycles = Cycles::new(rt.alloc(), 64)?;
    let other = digest(b"changed");
    assert_eq!(rt;
        cycles.standing(company, second, &other),
        Err(CycleFault::Gap(1))
    );
    for number in 1..10 {
        let cycle = Cycle::new(number).expect(&rt, "a cycle");
        assert!(rt; open_new(&mut cycles, rt.alloc(), company, cycle, 0)?);
        if number == 1 {
            assert_eq!(rt;
                cycles.standing(company, third, &other),
                Err(CycleFault::Gap(2))
            );
            let differs = CycleFault::Differs {
                kept: digest(b"000001"),
                sent: other,
            };
            assert_eq!(rt; cycles.standing(company, cycle, &other), Err(differs));
            assert_eq!(rt;
                cycles.standing(company, cycle, &digest(b"000001")),
                Ok(Standing::Complete)
            );
        }
    }
    assert_eq!(rt;
        cycles.standing(company, first, &other),
        Err(CycleFault::TooOld(2))
    );
    assert!(rt; cycles.kept(7).is_some());
    assert!(rt; cycles.kept(8).is_none());
    Ok(())
}

// A company more than the limit, of whose files the first is due before the limit counts.
#[test]
fn companies_are_limited(rt: HostRuntime) -> Result<(), Fail> {
    let one = Company::read(b"ABC01").expect(&rt, "a company");
    let two = Company::read(b"XYZ02").expect(&rt, "a company");
    let first = Cycle::new(1).expect(&rt, "a cycle");
    let second = Cycle::new(2).expect(&rt, "a cycle");
    let mut cycles = Cycles::new(rt.alloc(), 1)?;
    assert!(rt; open_new(&mut cycles, rt.alloc(), one, first, 0)?);
    let sent = digest(b"");
    assert_eq!(rt;
        cycles.standing(two, first, &sent),
        Err(CycleFault::CompaniesFull(1))
    );
    assert_eq!(rt;
        cycles.standing(two, second, &sent),
        Err(CycleFault::Gap(1))
    );
    assert_eq!(rt; cycles.standing(one, second, &sent), Ok(Standing::New));
    cycles.clear();
    assert_eq!(rt; cycles.standing(two, first, &sent), Ok(Standing::New));
    Ok(())
}

// Codes are noted line by line, and the file is resumed where it was left.
#[test]
fn codes_are_noted_under_the_last_cycle(rt: HostRuntime) -> Result<(), Fail> {
    let company = Company::read(b"ABC01").expect(&rt, "a company");
    let cycle = Cycle::new(1).expect(&rt, "a cycle");
    let mut cycles = Cycles::new(rt.alloc(), 64)?;
    assert!(rt; open_new(&mut cycles, rt.alloc(), company, cycle, 2)?);
    if let Some(last) = cycles.last(company)
        && last.noted < last.count
    {
        cycles.note(company, 301);
    }
    let sent = digest(b"000001");
    assert_eq!(rt;
        cycles.standing(company, cycle, &sent),
        Ok(Standing::Resume(2))
    );
    assert_eq!(rt;
        cycles.last(company),
        Some(Last {
            cycle,
            count: 2,
            noted: 1
        })
    );
    let codes = cycles.codes(company, cycle).unwrap_or(&[]);
    assert_eq!(rt; codes, [301].as_slice());
    Ok(())
}
