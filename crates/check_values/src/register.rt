ghost use Rattle.std.specs.Prelude.{◌≡◌, ℕ, List, [], ◌∷◌, ◌++◌};
ghost use Rattle.check_values.specs.Crc.{crc};

use crate::message::with_byte;
use std::marker::Model;

/// A CRC that is fed byte by byte, seen by contracts as the register's value.
#[derive(Debug, Drop)]
pub struct Crc16 {
    remainder: u16,
}

impl Model for Crc16 {
    ghost Value = { ℕ };

    ghost view = { λ check. check.remainder };
}

impl Crc16 {
    /// The CRC of no bytes yet, from the register's value `start`.
    pub fn new(start: u16) -> Crc16
        ensures value { result ≡ start }
        ensures empty { result ≡ crc start [] }
    {
        Crc16 { remainder: start }
    }

    /// One more byte of the message.
    pub fn add(&mut self, byte: u8)
        ensures step { self.new ≡ crc self.old (byte ∷ []) }

        // After any adds it stands at the CRC of the bytes added.
        ensures added { (start : ℕ) (bytes : List ℕ) → self.old ≡ crc start bytes
            → self.new ≡ crc start (bytes ++ byte ∷ []) }
    {
        self.remainder = with_byte(self.remainder, byte);
    }

    /// The register's value.
    pub fn value(&self) -> u16
        ensures { result ≡ self.now }
    {
        self.remainder
    }
}
