//! Reading bytes from their front: fields of a fixed width, and numbers of four bytes.
ghost use Rattle.std.specs.Prelude.{◌≡◌, option_map};
ghost use Rattle.ali_base.specs.Fronts.{are_zeros, front, number_at};

/// The first bytes, as an array, and what is left after them.
#[tactic(auto, unfolding(crate::specs::Fronts::front))]
pub fn front<const N: usize>(bytes: &[u8]) -> Option<(&[u8; N], &[u8])>
    ensures { option_map (λ x. (x.0.now, x.1.now)) result ≡ front N bytes.now }
{
    bytes.split_first_chunk::<N>()
}

/// The first bytes, so many, and what is left after them.
#[tactic(auto, unfolding(crate::specs::Fronts::front))]
pub fn first_bytes(width: usize, bytes: &[u8]) -> Option<(&[u8], &[u8])>
    ensures { option_map (λ x. (x.0.now, x.1.now)) result ≡ front width bytes.now }
{
    bytes.split_at_checked(width)
}

/// A number of four bytes, the highest first, and what is left after it.
#[tactic(auto, unfolding(crate::specs::Fronts::number_at))]
pub fn number_at(bytes: &[u8]) -> Option<(u32, &[u8])>
    ensures { option_map (λ x. (x.0, x.1.now)) result ≡ number_at bytes.now }
{
    let (number, rest) = front::<4>(bytes)?;
    Some((u32::from_be_bytes(*number), rest))
}

/// Whether they are nothing but zeros.
pub fn are_zeros(bytes: &[u8]) -> bool
    ensures { result ≡ are_zeros bytes.now }
{
    bytes.iter().all(|byte| *byte == 0)
}
