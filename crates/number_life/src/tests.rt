//! The life table, cell by cell, against answers that were written down apart from it.

use crate::{LifeAct, NumberStanding, Row, judge};
use ali_base::{Company, Day};
use ali_record::{Record, read_record};
use office_fixtures::SentRecord;

// The record of a company for one number, with this function.
fn record(function: u8, company: &[u8; 5]) -> Option<Record> {
    let sent = SentRecord {
        company,
        ..SentRecord::new(function, b"3035550100", b"")
    };
    read_record(&sent.bytes(), Company::read(company)?).ok()
}

// The row of the number where it stands so for ABC01.
fn row(standing: NumberStanding) -> Option<Row> {
    let own = record(b'I', b"ABC01")?;
    let others = record(b'I', b"XYZ02")?;
    let day = Day::read(b"123123");
    match standing {
        NumberStanding::Absent => None,
        NumberStanding::OwnLocked => Some(Row {
            rec: own,
            unlocked: None,
        }),
        NumberStanding::OwnUnlocked => Some(Row {
            rec: own,
            unlocked: day,
        }),
        NumberStanding::OthersLocked => Some(Row {
            rec: others,
            unlocked: None,
        }),
        NumberStanding::OthersUnlocked => Some(Row {
            rec: others,
            unlocked: day,
        }),
    }
}

// What a record of ABC01 does to a number that stands so.
fn judged(function: u8, standing: NumberStanding) -> Option<Result<LifeAct, u16>> {
    let sent = record(function, b"ABC01")?;
    Some(judge(row(standing).as_ref(), &sent))
}

const STANDINGS: [NumberStanding; 5] = [
    NumberStanding::Absent,
    NumberStanding::OwnLocked,
    NumberStanding::OwnUnlocked,
    NumberStanding::OthersLocked,
    NumberStanding::OthersUnlocked,
];

const STORED: Result<LifeAct, u16> = Ok(LifeAct::Store);

const REMOVED: Result<LifeAct, u16> = Ok(LifeAct::Remove);

// In each row of the table the answers stand in the order of STANDINGS.
#[test]
fn life_table(rt: HostRuntime) {
    let day = Day::read(b"010224").expect(&rt, "a day");
    let unlock = LifeAct::Unlock(day);
    let table = [
        (b'I', [STORED, Err(301), Err(301), Err(302), Err(302)]),
        (b'C', [Err(303), STORED, Err(313), Err(304), Err(304)]),
        (b'D', [Err(305), REMOVED, Err(313), Err(306), Err(306)]),
        (b'U', [Err(307), Ok(unlock), Err(309), Err(308), Err(308)]),
        (b'M', [Err(310), STORED, STORED, Err(311), STORED]),
    ];
    for (function, answers) in &table {
        for (standing, answer) in STANDINGS.iter().zip(answers.iter()) {
            assert_eq!(rt;
                judged(*function, *standing),
                Some(*answer),
                "{function} {standing:?}"
            );
        }
    }
}
