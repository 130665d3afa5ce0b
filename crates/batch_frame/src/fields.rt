//! The fields of a header and of a trailer.
ghost use Rattle.std.specs.Prelude.{◌≡◌, option_map, None, Some, MatchResult};
ghost use Rattle.ali_base.specs.Columns.{columns};
ghost use Rattle.ali_base.specs.Company.{company_of};
ghost use Rattle.ali_base.specs.Numbers.{cycle_of};
ghost use Rattle.ali_base.specs.CivilDay.{day_of};
ghost use Rattle.ali_base.specs.Digits.{digits_number};
ghost use Rattle.batch_frame.specs.declared.fault.FrameFault.TheVariants as faults;
ghost use Rattle.batch_frame.specs.FrameFault.{header_fault, trailer_fault};

use crate::fault::FrameFault;
use ali_base::{Company, Cycle, Day, columns, digits_number};

/// What a header tells.
#[derive(Drop)]
pub struct Header {
    pub day: Day,
    pub company: Company,
    pub cycle: Cycle,
}

/// What a trailer tells.
#[derive(Drop)]
pub struct Trailer {
    pub company: Company,
    pub count: u32,
}

/// Reads a header, or gives the number of its first wrong field.
#[tactic(auto, unfolding(crate::specs::FrameFault::header_fault))]
pub fn read_header(header: &[u8; 512]) -> Result<Header, FrameFault>
    ensures { MatchResult result
        (λ told. (header_fault header.now ≡ None)
        × (day_of (columns header.now 4 9) ≡ Some told.day)
        × (company_of (columns header.now 10 14) ≡ Some told.company)
        × (cycle_of (columns header.now 15 20) ≡ Some told.cycle))
        (λ fault. option_map faults.Header (header_fault header.now) ≡ Some fault) }
{
    if columns(header, 1, 3) != b"UHL".as_slice() {
        return Err(FrameFault::Header(1));
    }
    let day = Day::read(columns(header, 4, 9)).ok_or(FrameFault::Header(2))?;
    let company = Company::read(columns(header, 10, 14)).ok_or(FrameFault::Header(3))?;
    let cycle = Cycle::read(columns(header, 15, 20)).ok_or(FrameFault::Header(4))?;
    if columns(header, 21, 21) != b"1".as_slice() {
        return Err(FrameFault::Header(5));
    }
    if columns(header, 512, 512) != b"*".as_slice() {
        return Err(FrameFault::Header(6));
    }
    Ok(Header {
        day,
        company,
        cycle,
    })
}

/// Reads a trailer, or gives the number of its first wrong field.
#[tactic(auto, unfolding(crate::specs::FrameFault::trailer_fault))]
pub fn read_trailer(trailer: &[u8; 512]) -> Result<Trailer, FrameFault>
    ensures { MatchResult result
        (λ told. (trailer_fault trailer.now ≡ None)
        × (company_of (columns trailer.now 10 14) ≡ Some told.company)
        × (digits_number (columns trailer.now 15 23) ≡ Some told.count))
        (λ fault. option_map faults.Trailer (trailer_fault trailer.now) ≡ Some fault) }
{
    if columns(trailer, 1, 3) != b"UTL".as_slice() {
        return Err(FrameFault::Trailer(1));
    }
    let _day = Day::read(columns(trailer, 4, 9)).ok_or(FrameFault::Trailer(2))?;
    let company = Company::read(columns(trailer, 10, 14)).ok_or(FrameFault::Trailer(3))?;
    let count = digits_number(columns(trailer, 15, 23)).ok_or(FrameFault::Trailer(4))?;
    if columns(trailer, 512, 512) != b"*".as_slice() {
        return Err(FrameFault::Trailer(5));
    }
    Ok(Trailer {
        company,
        count: count as u32,
    })
}
