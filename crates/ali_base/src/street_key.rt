//! The name of a street, by which its ranges are found.
ghost use Rattle.std.specs.Prelude.{◌≡◌, ◌≤◌, map, length};
ghost use Rattle.ali_base.specs.StreetKey.{street_key, key_field, upper};

use crate::fields::trimmed;

/// The six fields that name a street. Each is padded with spaces to its width; keys are ordered by
/// their fields.
#[derive(Clone, Copy, Debug, PartialEq, Eq, PartialOrd, Ord)]
pub struct StreetKey {
    pub community: [u8; 32],
    pub state: [u8; 2],
    /// The directional before the name.
    pub prefix: [u8; 2],
    pub name: [u8; 60],
    pub suffix: [u8; 4],
    /// The directional after the name.
    pub post: [u8; 2],
}

impl StreetKey {
    /// The key that six texts name: in each, trailing spaces are cut, a-z are read as A-Z, and it is
    /// padded with spaces to the field's width.
    pub fn read(
        community: &[u8],
        state: &[u8],
        prefix: &[u8],
        name: &[u8],
        suffix: &[u8],
        post: &[u8],
    ) -> Self
        requires community { length community.now ≤ 32 }
        requires state { length state.now ≤ 2 }
        requires prefix { length prefix.now ≤ 2 }
        requires name { length name.now ≤ 60 }
        requires suffix { length suffix.now ≤ 4 }
        requires post { length post.now ≤ 2 }
        ensures { result
            ≡ street_key community.now state.now prefix.now name.now suffix.now post.now }
    {
        let mut key = StreetKey {
            community: [b' '; 32],
            state: [b' '; 2],
            prefix: [b' '; 2],
            name: [b' '; 60],
            suffix: [b' '; 4],
            post: [b' '; 2],
        };
        write_key_field(&mut key.community, community);
        write_key_field(&mut key.state, state);
        write_key_field(&mut key.prefix, prefix);
        write_key_field(&mut key.name, name);
        write_key_field(&mut key.suffix, suffix);
        write_key_field(&mut key.post, post);
        key
    }
}

// Writes a text over a field as a street key has it.
fn write_key_field(out: &mut [u8], text: &[u8])
    requires { length text.now ≤ length out.old }
    ensures { out.new ≡ key_field (length out.old) text.now }
{
    let text = trimmed(text);
    out[text.len()..].fill(b' ');
    write_upper(&mut out[..text.len()], text);
}

// Writes a text with a-z as A-Z.
fn write_upper(out: &mut [u8], text: &[u8])
    requires { length text.now ≡ length out.old }
    ensures { out.new ≡ map upper text.now }
{
    out.copy_from_slice(text);
    out.make_ascii_uppercase();
}
