//! The life of a number.
ghost use Rattle.std.specs.Prelude.{◌≡◌};
ghost use Rattle.std.specs.Option.{option_copied};
ghost use Rattle.ali_base.specs.CivilDay.{CivilDay};
ghost use Rattle.number_life.specs.NumberLife.{life, life_of};

use crate::act::LifeAct;
use crate::number_standing::NumberStanding;
use crate::row::Row;
use ali_base::Day;
use ali_record::{Field, Function, Record};

/// What a record does to its number, which has this row or none; or the code of its refusal.
///
/// | Function | no row | own, locked | own, unlocked | another's, locked | another's, unlocked |
/// |---|---|---|---|---|---|
/// | I | stored | 301 | 301 | 302 | 302 |
/// | C | 303 | replaced | 313 | 304 | 304 |
/// | D | 305 | removed | 313 | 306 | 306 |
/// | U | 307 | unlocked | 309 | 308 | 308 |
/// | M | 310 | replaced | replaced, locked | 311 | replaced, locked |
///
/// A row is own where its record has the same company as this one.
#[tactic(auto, unfolding(crate::specs::NumberLife::life_of))]
pub fn judge(current: Option<&Row>, rec: &Record) -> Result<LifeAct, u16>
    ensures { result ≡ life_of (option_copied current.entry) rec.now }
{
    let standing = NumberStanding::of(current, rec.field(Field::Company));
    life(Function::of(rec.function()), standing, rec.day())
}

// The table.
fn life(function: Function, standing: NumberStanding, day: Day) -> Result<LifeAct, u16>
    ensures { result ≡ life function standing day }
{
    match function {
        Function::Insert => insert(standing),
        Function::Change => change(standing),
        Function::Delete => delete(standing),
        Function::Unlock => unlock(standing, day),
        Function::Migrate => migrate(standing),
    }
}

fn insert(standing: NumberStanding) -> Result<LifeAct, u16>
    ensures { (day : CivilDay) → result ≡ life Function.Insert standing day }
{
    match standing {
        NumberStanding::Absent => Ok(LifeAct::Store),
        NumberStanding::OwnLocked | NumberStanding::OwnUnlocked => Err(301),
        NumberStanding::OthersLocked | NumberStanding::OthersUnlocked => Err(302),
    }
}

fn change(standing: NumberStanding) -> Result<LifeAct, u16>
    ensures { (day : CivilDay) → result ≡ life Function.Change standing day }
{
    match standing {
        NumberStanding::Absent => Err(303),
        NumberStanding::OwnLocked => Ok(LifeAct::Store),
        NumberStanding::OwnUnlocked => Err(313),
        NumberStanding::OthersLocked | NumberStanding::OthersUnlocked => Err(304),
    }
}

fn delete(standing: NumberStanding) -> Result<LifeAct, u16>
    ensures { (day : CivilDay) → result ≡ life Function.Delete standing day }
{
    match standing {
        NumberStanding::Absent => Err(305),
        NumberStanding::OwnLocked => Ok(LifeAct::Remove),
        NumberStanding::OwnUnlocked => Err(313),
        NumberStanding::OthersLocked | NumberStanding::OthersUnlocked => Err(306),
    }
}

fn unlock(standing: NumberStanding, day: Day) -> Result<LifeAct, u16>
    ensures { result ≡ life Function.Unlock standing day }
{
    match standing {
        NumberStanding::Absent => Err(307),
        NumberStanding::OwnLocked => Ok(LifeAct::Unlock(day)),
        NumberStanding::OwnUnlocked => Err(309),
        NumberStanding::OthersLocked | NumberStanding::OthersUnlocked => Err(308),
    }
}

fn migrate(standing: NumberStanding) -> Result<LifeAct, u16>
    ensures { (day : CivilDay) → result ≡ life Function.Migrate standing day }
{
    match standing {
        NumberStanding::Absent => Err(310),
        NumberStanding::OwnLocked | NumberStanding::OwnUnlocked | NumberStanding::OthersUnlocked =>
            Ok(LifeAct::Store),
        NumberStanding::OthersLocked => Err(311),
    }
}
