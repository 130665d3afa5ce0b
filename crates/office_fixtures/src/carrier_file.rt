//! The parts of a carrier's file.
use crate::columns::put;
use ali_base::NoMemory;
use std::alloc::Global;

/// The header of a company's file with the date 010224, whose cycle is six digits.
pub fn header(company: &[u8; 5], cycle: &[u8; 6]) -> [u8; 512] {
    let mut header = end(b"UHL", company);
    put(&mut header, 15, cycle);
    put(&mut header, 21, b"1");
    header
}

/// The trailer of a company's file with the date 010224, whose count is nine digits.
pub fn trailer(company: &[u8; 5], count: &[u8; 9]) -> [u8; 512] {
    let mut trailer = end(b"UTL", company);
    put(&mut trailer, 15, count);
    trailer
}

/// The records one after the other, each with the separator behind it.
///
/// # Errors
///
/// `NoMemory`.
pub fn joined(alloc: Global, records: &[[u8; 512]], separator: &[u8]) -> Result<Vec<u8>, NoMemory> {
    let mut bytes = Vec::new(alloc);
    for record in records {
        bytes.extend_from_slice(record)?;
        bytes.extend_from_slice(separator)?;
    }
    Ok(bytes)
}

// What a header and a trailer have alike.
fn end(name: &[u8; 3], company: &[u8; 5]) -> [u8; 512] {
    let mut end = [b' '; 512];
    put(&mut end, 1, name);
    put(&mut end, 4, b"010224");
    put(&mut end, 10, company);
    put(&mut end, 512, b"*");
    end
}
