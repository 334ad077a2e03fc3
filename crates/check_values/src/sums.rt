ghost use Rattle.std.specs.Prelude.{◌≡◌};
ghost use Rattle.check_values.specs.Sums.{xor, data_xor};

/// The cells of a raw long that hold data: every second one, the last among them.
const DATA_CELLS: u32 = 0x5555_5555;

/// The exclusive or of the bytes, 0 for none (the check value of Commodore 1541 and Apple DOS 3.3 fields).
pub fn xor_bytes(bytes: &[u8]) -> u8
    ensures { result ≡ xor bytes.now }
{
    bytes.iter().fold(0, |sum, byte| sum ^ *byte)
}

/// The exclusive or of raw longs, 32 cells each, in their data cells alone (the check value of Amiga
/// trackdisk sectors).
pub fn amiga_xor(longs: &[u32]) -> u32
    ensures { result ≡ data_xor longs.now }
{
    longs.iter().fold(0, |sum, long| sum ^ *long) & DATA_CELLS
}
