//! The bytes of a duty.
ghost use Rattle.std.specs.Prelude.{◌≡◌, option_map, IfSome};
ghost use Rattle.commit_log.specs.LogState.{body_of};
ghost use Rattle.duty_register.specs.DutyBytes.{IsDuty, IsBodyOf, body, mode_letter, mode_at, duty_from};

use ali_base::{Duty, Mode, NodeName, ZeroFilled, front, number_at};

// The letter of a mode.
fn mode_letter(mode: Mode) -> u8
    ensures { result ≡ mode_letter mode }
{
    match mode {
        Mode::Both => b'B',
        Mode::Alone => b'A',
    }
}

/// The body of a duty, and room for the commit byte behind it.
pub(crate) fn duty_block(duty: Duty) -> [u8; 32]
    ensures body { body_of result ≡ body duty }
    ensures lawful { IsDuty duty }
{
    let mut block = ZeroFilled::new();
    block.push_number(duty.epoch);
    block.push(&duty.holder.text());
    block.push(&[mode_letter(duty.mode)]);
    block.push_number(duty.floor);
    block.whole()
}

// The mode by its letter, and what is left after it.
#[tactic(auto, unfolding(crate::specs::DutyBytes::mode_at))]
fn mode_at(bytes: &[u8]) -> Option<(Mode, &[u8])>
    ensures { option_map (λ x. (x.0, x.1.now)) result ≡ mode_at bytes.now }
{
    match bytes {
        [b'B', rest @ ..] => Some((Mode::Both, rest)),
        [b'A', rest @ ..] => Some((Mode::Alone, rest)),
        _ => None,
    }
}

/// The duty of a body. None where the bytes are no body of the frame of that number.
pub(crate) fn duty_of(number: u32, bytes: &[u8]) -> Option<Duty>
    ensures found { IfSome result (λ duty. IsBodyOf number duty bytes.now) }
    // The same by the reader.
    ensures exact { result ≡ duty_from number bytes.now }
{
    duty_from(number, bytes)
}

// The duty of a body, by its fields from the front.
#[tactic(auto, unfolding(crate::specs::DutyBytes::duty_from))]
fn duty_from(number: u32, bytes: &[u8]) -> Option<Duty>
    ensures { result ≡ duty_from number bytes.now }
{
    let (epoch, rest) = number_at(bytes)?;
    let (letter, rest) = front::<1>(rest)?;
    let (mode, rest) = mode_at(rest)?;
    let (floor, rest) = number_at(rest)?;
    let holder = NodeName::read(letter)?;
    if rest == [0; 21].as_slice() && epoch as u64 == number as u64 + 1 {
        Some(Duty {
            epoch,
            holder,
            mode,
            floor,
        })
    } else {
        None
    }
}
