//! The last edit of one editor.
ghost use Rattle.std.specs.Prelude.{◌≡◌};
ghost use Rattle.sequence_once.specs.SerialStanding.{answered_edit};

use std::marker::Model;

/// An edit of the street guide that was answered.
#[derive(Clone, Copy)]
pub struct EditRecord {
    serial: u32,
    digest: [u8; 32],
    code: u16,
    detail: u64,
}

impl Model for EditRecord {
    ghost use Rattle.sequence_once.specs.SerialStanding.{EditRecord, answered_edit};

    ghost Value = { EditRecord };

    ghost view = { λ e. answered_edit e.serial e.digest e.code e.detail };

    ghost inverse = { λ e. record {
      serial = e.serial;
      digest = e.digest;
      code = e.code;
      detail = e.detail;
    } };
}

impl EditRecord {
    /// An edit with this serial, the digest of its bytes, and the code and the detail of its answer.
    pub fn new(serial: u32, digest: &[u8; 32], code: u16, detail: u64) -> Self
        ensures { result ≡ answered_edit serial digest.now code detail }
    {
        EditRecord {
            serial,
            digest: *digest,
            code,
            detail,
        }
    }

    pub fn serial(&self) -> u32
        ensures { result ≡ self.now.serial }
    {
        self.serial
    }

    /// The digest of its bytes.
    pub fn digest(&self) -> &[u8; 32]
        ensures { result.now ≡ self.now.digest }
    {
        &self.digest
    }

    /// The code of its answer, 0 where it was done.
    pub fn code(&self) -> u16
        ensures { result ≡ self.now.code }
    {
        self.code
    }

    /// The detail of its answer.
    pub fn detail(&self) -> u64
        ensures { result ≡ self.now.detail }
    {
        self.detail
    }
}
