//! Reading the script.
ghost use Rattle.std.specs.Prelude.{◌≤◌, length, IfOk, IfErr};
ghost use Rattle.office_run.specs.ScriptInput.{TookAll};
ghost use Rattle.office_run.specs.InputFaults.{InputStops, TakesPiece, PieceStops};

use ali_base::{Source, Taken};
use std::alloc::Global;

/// The most bytes of a script.
pub const SCRIPT_LIMIT: usize = 67_108_864;

const PIECE: usize = 4096;

/// Why a source was not read to its end.
#[derive(Clone, Copy, Debug, PartialEq, Eq)]
pub(crate) enum InputFault {
    /// Memory ran out.
    NoMemory,
    /// The source failed.
    Failed,
    /// There are more bytes than the limit.
    TooLong,
}

/// All that a source has left.
pub(crate) fn read_all<S: Source>(alloc: Global, source: &mut S) -> Result<Vec<u8>, InputFault>
    ensures all { IfOk result (λ bytes.
        TookAll (S.left source.old) (S.left source.new) bytes.items) }
    ensures fault { IfErr result (InputStops S.left S.faults source.old source.new) }
    ensures later { S.faults source.old ≤ S.faults source.new }
{
    let mut bytes = Vec::new(alloc);
    for _ in 0..SCRIPT_LIMIT + 1 {
        match take_piece(source, &mut bytes) {
            Ok(true) => {}
            Ok(false) => return Ok(bytes),
            Err(fault) => return Err(fault),
        }
        if bytes.len() > SCRIPT_LIMIT {
            return Err(InputFault::TooLong);
        }
    }
    Err(InputFault::TooLong)
}

// Takes one piece more, up to one byte past the limit, and says whether there was one.
fn take_piece<S: Source>(source: &mut S, bytes: &mut Vec<u8>) -> Result<bool, InputFault>
    requires { length bytes.old.items ≤ SCRIPT_LIMIT }
    ensures more { IfOk result (TakesPiece (S.left source.old) (S.left source.new)
        bytes.old.items bytes.new.items) }
    ensures fault { IfErr result
        (PieceStops S.left S.faults source.old source.new bytes.old.items) }
    ensures later { S.faults source.old ≤ S.faults source.new }
{
    let mut piece = [0; PIECE];
    let room = (SCRIPT_LIMIT + 1 - bytes.len()).min(PIECE);
    match source.take(&mut piece[..room]) {
        Taken::Took(count) => match bytes.extend_from_slice(&piece[..count]) {
            Ok(()) => Ok(true),
            Err(_) => Err(InputFault::NoMemory),
        },
        Taken::End => Ok(false),
        Taken::Failed => Err(InputFault::Failed),
    }
}
