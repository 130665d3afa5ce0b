//! Streets of Denver.
ghost use Rattle.std.specs.Prelude.{◌≤◌, length};

use ali_base::StreetKey;

/// The street of this name in DENVER CO with the suffix ST.
pub fn street(name: &[u8]) -> StreetKey
    requires { length name.now ≤ 60 }
{
    StreetKey::read(b"DENVER", b"CO", b"", name, b"ST", b"")
}
