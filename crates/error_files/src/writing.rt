//! Writing an error file.
ghost use Rattle.std.specs.Prelude.{◌≡◌, ◌==◌, ◌≤◌, not, count_by, length, IfOk};
ghost use Rattle.ali_base.specs.WholePuts.{Puts};
ghost use Rattle.batch_frame.specs.declared.fault.TheConstants.{MOST_RECORDS};
ghost use Rattle.batch_frame.specs.CarrierFile.{separated};
ghost use Rattle.error_files.specs.ErrorFile.{error_file, refused_in};
ghost use Rattle.error_files.specs.TextPuts.{PutsText};

use crate::parts::{counted_trailer, put_record, refused_record};
use ali_base::{Sink, SinkFault};
use batch_frame::FileView;

/// How the writing of an error file ended.
#[derive(Clone, Copy, Debug, PartialEq, Eq)]
pub enum ErrorsEnd {
    /// All of it was put.
    Done,
    /// The sink failed, or took nothing; a front of the error file was put.
    SinkFault,
}

/// Puts the error file of a file whose records have these codes. Takes no memory.
pub fn write_errors<K: Sink>(file: &FileView<'_>, codes: &[u16], sink: &mut K) -> ErrorsEnd
    requires { length codes.now ≡ file.now.count }
    ensures put { PutsText K.contents K.faults sink.old sink.new
        (error_file file.now codes.now) result }
{
    match put_error_file(file, codes, sink) {
        Ok(()) => ErrorsEnd::Done,
        Err(SinkFault) => ErrorsEnd::SinkFault,
    }
}

/// Puts the error file of a file whose records have these codes: its header, the refused records
/// and its trailer. Takes no memory.
pub fn put_error_file<K: Sink>(
    file: &FileView<'_>,
    codes: &[u16],
    sink: &mut K,
) -> Result<(), SinkFault>
    requires { length codes.now ≡ file.now.count }
    ensures put { Puts K.contents K.faults sink.old sink.new
        (error_file file.now codes.now) result }
{
    let separator = file.separator();
    put_record(sink, file.header(), separator)?;
    let count = put_refused(file, codes, sink)?;
    let trailer = counted_trailer(file.trailer(), count);
    put_record(sink, &trailer, separator)
}

// Puts the refused records, and counts them.
fn put_refused<K: Sink>(file: &FileView<'_>, codes: &[u16], sink: &mut K) -> Result<u32, SinkFault>
    requires { length codes.now ≡ file.now.count }
    ensures count { IfOk result (λ n. (n ≡ length (refused_in file.now codes.now))
        × (n ≤ MOST_RECORDS)) }
    ensures put { Puts K.contents K.faults sink.old sink.new
        (separated file.now.separator (refused_in file.now codes.now)) result }
{
    let separator = file.separator();
    let mut refused = 0;
    for i in 0..file.count() {
        let code = codes[i as usize];
        if code != 0 {
            let bytes = refused_record(file.records(i + 1), code);
            put_record(sink, &bytes, separator)?;
            refused += 1;
        }
    }
    Ok(refused)
}

/// How many bytes the error file has.
pub fn errors_len(file: &FileView<'_>, codes: &[u16]) -> usize
    requires { length codes.now ≡ file.now.count }
    ensures { result ≡ length (error_file file.now codes.now) }
{
    let size = file.separator().piece_size();
    (count_refused(codes) as usize + 2) * size
}

/// How many of these codes of a file are not 0.
pub fn count_refused(codes: &[u16]) -> u32
    requires { length codes.now ≤ MOST_RECORDS }
    ensures { result ≡ count_by (λ code. not (code == 0)) codes.now }
{
    codes.iter().filter(|code| **code != 0).count() as u32
}
