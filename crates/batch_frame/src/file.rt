//! Files that are read.
ghost use Rattle.std.specs.Prelude.{◌≡◌, ◌≤◌, ◌-◌, [], length, slice_index_or, Some, MatchResult, IfOk};
ghost use Rattle.batch_frame.specs.FrameFault.{IsSomeFile, IsRead, frame_fault, file_of};
ghost use Rattle.batch_frame.specs.Told.{frame_of};

use crate::fault::{FrameFault, MOST_RECORDS};
use crate::fields::{read_header, read_trailer};
use crate::framing::{check_length, check_separators, count_records, record_at, separator_of};
use crate::separator::Separator;
use ali_base::{Company, Cycle, Day};
use std::marker::Model;

/// What a file told when it was read. With it the file's parts are lent again, and its frame is not read
/// a second time.
#[derive(Clone, Copy, Debug, PartialEq, Eq)]
pub struct FileFrame {
    pub separator: Separator,
    pub company: Company,
    pub cycle: Cycle,
    pub day: Day,
    /// How many records stand between the header and the trailer.
    pub count: u32,
}

/// A carrier's file without a fault. Its parts are lent from the bytes that were read.
#[derive(Drop)]
pub struct FileView<'a> {
    bytes: &'a [u8],
    separator: Separator,
    company: Company,
    cycle: Cycle,
    day: Day,
    count: u32,
}

impl<'a> Model for FileView<'a> {
    ghost use Rattle.batch_frame.specs.CarrierFile.{CarrierFile, file_in};
    ghost use Rattle.batch_frame.specs.FrameFault.{IsRead};

    ghost Value = { CarrierFile };

    ghost view = { λ v. file_in v.bytes.now v.separator v.count v.company v.cycle v.day };

    ghost invariant = { λ v. IsRead v.bytes.now
        (file_in v.bytes.now v.separator v.count v.company v.cycle v.day) };
}

impl<'a> FileView<'a> {
    /// The parts of a file that was read before, and what it told then.
    pub fn again(bytes: &'a [u8], frame: FileFrame) -> Self
        requires framed { frame_fault bytes.now ≡ None }
        requires told { frame ≡ frame_of (file_of bytes.now) }
        ensures value { result ≡ file_of bytes.now }
        ensures read { IsRead bytes.now result }
    {
        FileView {
            bytes,
            separator: frame.separator,
            company: frame.company,
            cycle: frame.cycle,
            day: frame.day,
            count: frame.count,
        }
    }

    /// What the file told when it was read.
    pub fn frame(&self) -> FileFrame
        ensures { result ≡ frame_of self.now }
    {
        FileFrame {
            separator: self.separator,
            company: self.company,
            cycle: self.cycle,
            day: self.day,
            count: self.count,
        }
    }

    /// The header, 512 bytes.
    pub fn header(&self) -> &[u8; 512]
        ensures value { result.now ≡ self.now.header }
        ensures sound { IsSomeFile self.now }
    {
        record_at(self.bytes, self.separator, 0)
    }

    /// Record `i` of the count, from 1.
    pub fn records(&self, i: u32) -> &[u8; 512]
        requires { (1 ≤ i) × (i ≤ self.now.count) }
        ensures { result.now ≡ slice_index_or self.now.records (i - 1) [] }
    {
        record_at(self.bytes, self.separator, i as usize)
    }

    /// The trailer, 512 bytes.
    pub fn trailer(&self) -> &[u8; 512]
        ensures { result.now ≡ self.now.trailer }
    {
        record_at(self.bytes, self.separator, self.count as usize + 1)
    }

    /// What follows each record.
    pub fn separator(&self) -> Separator
        ensures value { result ≡ self.now.separator }
        ensures sound { IsSomeFile self.now }
    {
        self.separator
    }

    /// The company of the header, which is the trailer's too.
    pub fn company(&self) -> Company
        ensures { result ≡ self.now.company }
    {
        self.company
    }

    /// The cycle of the header.
    pub fn cycle(&self) -> Cycle
        ensures { result ≡ self.now.cycle }
    {
        self.cycle
    }

    /// The date of the header.
    pub fn day(&self) -> Day
        ensures { result ≡ self.now.day }
    {
        self.day
    }

    /// How many records stand between the header and the trailer, at most 10,000.
    pub fn count(&self) -> u32
        ensures value { result ≡ self.now.count }
        ensures records { result ≡ length self.now.records }
        ensures limit { result ≤ MOST_RECORDS }
        ensures sound { IsSomeFile self.now }
    {
        self.count
    }
}

/// Reads the bytes as a carrier's file, and lends its parts; or gives the first fault. Takes no memory.
pub fn read_file(bytes: &[u8]) -> Result<FileView<'_>, FrameFault>
    ensures read { MatchResult result
        (IsRead bytes.now)
        (λ fault. frame_fault bytes.now ≡ Some fault) }
    ensures value { IfOk result (λ file. file ≡ file_of bytes.now) }
{
    let separator = separator_of(bytes);
    check_length(bytes, separator)?;
    let count = count_records(bytes, separator)?;
    check_separators(bytes, separator)?;
    let header = read_header(record_at(bytes, separator, 0))?;
    let trailer = read_trailer(record_at(bytes, separator, count as usize + 1))?;
    if header.company != trailer.company {
        return Err(FrameFault::Company {
            header: header.company,
            trailer: trailer.company,
        });
    }
    if trailer.count != count {
        return Err(FrameFault::Count {
            told: trailer.count,
            found: count,
        });
    }
    Ok(FileView {
        bytes,
        separator,
        company: header.company,
        cycle: header.cycle,
        day: header.day,
        count,
    })
}
