ghost use Rattle.std.specs.Prelude.{◌≡◌, ℕ, Bool, List, ◌+◌, ◌-◌, ◌*◌, ◌^◌, ◌<◌, ◌≤◌, [], ◌∷◌, ◌++◌, All, length, flat_map};
ghost use Rattle.std.specs.Prelude.{OnOk, OnErr, IsOk};
ghost use Rattle.cell_bits.specs.State.{room};
ghost use Rattle.cell_bits.specs.Word.{word_cells};
ghost use Rattle.cell_bits.specs.inside.Spread.{spread_of};
ghost use Rattle.cell_bits.specs.Run.{run_cells, IsRun, IsShortRun};
ghost use Rattle.cell_bits.specs.Bytes.{fm, mfm, last_cell};

use super::{Cells, MOST_WORDS};
use flux_base::Memory;

/// The runs of any four counts, each of 1 to 4, as the low bits of a number, high bit first: at 64, 16, 4 and 1
/// times the counts, each less one.
static FOUR_RUNS: [u16; 256] = [
    0x000f, 0x001d, 0x0039, 0x0071, 0x001b, 0x0035, 0x0069, 0x00d1, 0x0033, 0x0065, 0x00c9, 0x0191,
    0x0063, 0x00c5, 0x0189, 0x0311, 0x0017, 0x002d, 0x0059, 0x00b1, 0x002b, 0x0055, 0x00a9, 0x0151,
    0x0053, 0x00a5, 0x0149, 0x0291, 0x00a3, 0x0145, 0x0289, 0x0511, 0x0027, 0x004d, 0x0099, 0x0131,
    0x004b, 0x0095, 0x0129, 0x0251, 0x0093, 0x0125, 0x0249, 0x0491, 0x0123, 0x0245, 0x0489, 0x0911,
    0x0047, 0x008d, 0x0119, 0x0231, 0x008b, 0x0115, 0x0229, 0x0451, 0x0113, 0x0225, 0x0449, 0x0891,
    0x0223, 0x0445, 0x0889, 0x1111, 0x000f, 0x001d, 0x0039, 0x0071, 0x001b, 0x0035, 0x0069, 0x00d1,
    0x0033, 0x0065, 0x00c9, 0x0191, 0x0063, 0x00c5, 0x0189, 0x0311, 0x0017, 0x002d, 0x0059, 0x00b1,
    0x002b, 0x0055, 0x00a9, 0x0151, 0x0053, 0x00a5, 0x0149, 0x0291, 0x00a3, 0x0145, 0x0289, 0x0511,
    0x0027, 0x004d, 0x0099, 0x0131, 0x004b, 0x0095, 0x0129, 0x0251, 0x0093, 0x0125, 0x0249, 0x0491,
    0x0123, 0x0245, 0x0489, 0x0911, 0x0047, 0x008d, 0x0119, 0x0231, 0x008b, 0x0115, 0x0229, 0x0451,
    0x0113, 0x0225, 0x0449, 0x0891, 0x0223, 0x0445, 0x0889, 0x1111, 0x000f, 0x001d, 0x0039, 0x0071,
    0x001b, 0x0035, 0x0069, 0x00d1, 0x0033, 0x0065, 0x00c9, 0x0191, 0x0063, 0x00c5, 0x0189, 0x0311,
    0x0017, 0x002d, 0x0059, 0x00b1, 0x002b, 0x0055, 0x00a9, 0x0151, 0x0053, 0x00a5, 0x0149, 0x0291,
    0x00a3, 0x0145, 0x0289, 0x0511, 0x0027, 0x004d, 0x0099, 0x0131, 0x004b, 0x0095, 0x0129, 0x0251,
    0x0093, 0x0125, 0x0249, 0x0491, 0x0123, 0x0245, 0x0489, 0x0911, 0x0047, 0x008d, 0x0119, 0x0231,
    0x008b, 0x0115, 0x0229, 0x0451, 0x0113, 0x0225, 0x0449, 0x0891, 0x0223, 0x0445, 0x0889, 0x1111,
    0x000f, 0x001d, 0x0039, 0x0071, 0x001b, 0x0035, 0x0069, 0x00d1, 0x0033, 0x0065, 0x00c9, 0x0191,
    0x0063, 0x00c5, 0x0189, 0x0311, 0x0017, 0x002d, 0x0059, 0x00b1, 0x002b, 0x0055, 0x00a9, 0x0151,
    0x0053, 0x00a5, 0x0149, 0x0291, 0x00a3, 0x0145, 0x0289, 0x0511, 0x0027, 0x004d, 0x0099, 0x0131,
    0x004b, 0x0095, 0x0129, 0x0251, 0x0093, 0x0125, 0x0249, 0x0491, 0x0123, 0x0245, 0x0489, 0x0911,
    0x0047, 0x008d, 0x0119, 0x0231, 0x008b, 0x0115, 0x0229, 0x0451, 0x0113, 0x0225, 0x0449, 0x0891,
    0x0223, 0x0445, 0x0889, 0x1111,
];

/// Times four bytes of a number this is in its high byte 64, 16, 4 and 1 times the bytes, added up.
const PLACES: u32 = (1 << 30) + (1 << 20) + (1 << 10) + 1;

/// A one in each of four bytes. Times four bytes of a number it is in its high byte their sum.
const ONES: u32 = (1 << 24) + (1 << 16) + (1 << 8) + 1;

/// How many short runs are appended together: at most 32 cells, as many as `append` takes.
const GROUP: usize = 8;

/// The most cells of a short run.
const LONGEST_SHORT: u8 = 4;

/// How many runs are looked at together, whether all are short.
const BLOCK: usize = 256;

impl Cells {
    /// Appends one cell. Memory leaves the list as it was.
    pub fn push_cell(&mut self, cell: bool) -> Result<(), Memory>
        ensures cells { OnOk result (self.new.cells ≡ self.old.cells ++ cell ∷ []) }
        ensures unchanged { OnErr result (self.new.cells ≡ self.old.cells) }
        ensures room { room self.old ≤ room self.new }
        ensures succeeds { 1 ≤ self.old.spare → IsOk result }
    {
        self.append(cell as u64, 1)
    }

    /// Appends the cells from after one flux transition to the next: `count` - 1 zeros and a one, for a count
    /// of 1 to 32. Memory leaves the list as it was.
    pub fn push_run(&mut self, count: u8) -> Result<(), Memory>
        requires some { 1 ≤ count }
        requires most { count ≤ 32 }
        ensures cells { OnOk result (self.new.cells ≡ self.old.cells ++ run_cells count) }
        ensures unchanged { OnErr result (self.new.cells ≡ self.old.cells) }
        ensures room { room self.old ≤ room self.new }
        ensures succeeds { count ≤ self.old.spare → IsOk result }
    {
        self.append(1, count as u32)
    }

    /// Appends the runs of several counts, each of 1 to 32, as `push_run` appends one, but eight at a time where those
    /// about them are of 1 to 4. Memory leaves the list as it was.
    pub fn push_runs(&mut self, counts: &[u8]) -> Result<(), Memory>
        requires runs { All IsRun counts.now }
        ensures cells { OnOk result (self.new.cells ≡ self.old.cells ++ flat_map run_cells counts.now) }
        ensures unchanged { OnErr result (self.new.cells ≡ self.old.cells) }
        ensures room { room self.old ≤ room self.new }
        ensures most { length (flat_map run_cells counts.now) ≤ 32 * length counts.now }
        ensures few { All IsShortRun counts.now
            → length (flat_map run_cells counts.now) ≤ 4 * length counts.now }
        ensures succeeds { length (flat_map run_cells counts.now) ≤ self.old.spare → IsOk result }
    {
        let words = self.words.len();
        let last = self.last;
        let filled = self.filled;
        let pushed = self.push_blocks(counts);
        if pushed.is_err() {
            self.words.truncate(words);
            self.last = last;
            self.filled = filled;
            self.kept.forget();
        }
        pushed
    }

    /// What `push_runs` appends. Memory leaves some cells at the list's end.
    fn push_blocks(&mut self, counts: &[u8]) -> Result<(), Memory>
        requires runs { All IsRun counts.now }
        ensures cells { OnOk result (self.new.cells ≡ self.old.cells ++ flat_map run_cells counts.now) }
        ensures part { OnErr result ((more : List Bool) × (self.new.cells ≡ self.old.cells ++ more)) }
        ensures room { room self.old ≤ room self.new }
        ensures succeeds { length (flat_map run_cells counts.now) ≤ self.old.spare → IsOk result }
    {
        let blocks = counts.len() / BLOCK;
        for block in 0..blocks {
            self.push_block(&counts[BLOCK * block..BLOCK * block + BLOCK])?;
        }
        self.push_block(&counts[BLOCK * blocks..])
    }

    /// The same, where all runs are looked at together, whether they are short.
    fn push_block(&mut self, counts: &[u8]) -> Result<(), Memory>
        requires runs { All IsRun counts.now }
        ensures cells { OnOk result (self.new.cells ≡ self.old.cells ++ flat_map run_cells counts.now) }
        ensures part { OnErr result ((more : List Bool) × (self.new.cells ≡ self.old.cells ++ more)) }
        ensures room { room self.old ≤ room self.new }
        ensures succeeds { length (flat_map run_cells counts.now) ≤ self.old.spare → IsOk result }
    {
        if longest_run(counts) > LONGEST_SHORT {
            return self.push_each(counts);
        }
        self.push_groups(counts)
    }

    /// The same of short runs, eight at a time.
    fn push_groups(&mut self, counts: &[u8]) -> Result<(), Memory>
        requires short { All IsShortRun counts.now }
        ensures cells { OnOk result (self.new.cells ≡ self.old.cells ++ flat_map run_cells counts.now) }
        ensures part { OnErr result ((more : List Bool) × (self.new.cells ≡ self.old.cells ++ more)) }
        ensures room { room self.old ≤ room self.new }
        ensures succeeds { length (flat_map run_cells counts.now) ≤ self.old.spare → IsOk result }
    {
        let groups = counts.len() / GROUP;
        for group in 0..groups {
            let (bits, count) = joined_runs(&counts[GROUP * group..GROUP * group + GROUP]);
            self.append(bits, count)?;
        }
        self.push_each(&counts[GROUP * groups..])
    }

    /// The same, one run after another. A call, so that short runs have the registers for themselves.
    #[inline(never)]
    fn push_each(&mut self, counts: &[u8]) -> Result<(), Memory>
        requires runs { All IsRun counts.now }
        ensures cells { OnOk result (self.new.cells ≡ self.old.cells ++ flat_map run_cells counts.now) }
        ensures part { OnErr result ((more : List Bool) × (self.new.cells ≡ self.old.cells ++ more)) }
        ensures room { room self.old ≤ room self.new }
        ensures succeeds { length (flat_map run_cells counts.now) ≤ self.old.spare → IsOk result }
    {
        for place in 0..counts.len() {
            self.push_run(counts[place])?;
        }
        Ok(())
    }

    /// Appends the low `count` bits of the word, 1 to 32, high bit first. Memory leaves the list as it was.
    pub fn push_word(&mut self, word: u32, count: u8) -> Result<(), Memory>
        requires some { 1 ≤ count }
        requires most { count ≤ 32 }
        ensures cells { OnOk result (self.new.cells ≡ self.old.cells ++ word_cells count word) }
        ensures unchanged { OnErr result (self.new.cells ≡ self.old.cells) }
        ensures room { room self.old ≤ room self.new }
        ensures succeeds { count ≤ self.old.spare → IsOk result }
    {
        let low = word as u64 % (1 << count as u32);
        self.append(low, count as u32)
    }

    /// Appends the 16 cells of a byte in FM (IBM 3740). Memory leaves the list as it was.
    pub fn push_fm(&mut self, byte: u8) -> Result<(), Memory>
        ensures cells { OnOk result (self.new.cells ≡ self.old.cells ++ fm byte) }
        ensures unchanged { OnErr result (self.new.cells ≡ self.old.cells) }
        ensures room { room self.old ≤ room self.new }
        ensures succeeds { 16 ≤ self.old.spare → IsOk result }
    {
        self.append(fm_word(byte) as u64, 16)
    }

    /// Appends the 16 cells of a byte in MFM (IBM System 34). The data bit before it is the list's last cell,
    /// or 0 where the list is empty. Memory leaves the list as it was.
    pub fn push_mfm(&mut self, byte: u8) -> Result<(), Memory>
        ensures cells { OnOk result (self.new.cells ≡ self.old.cells ++ mfm (last_cell self.old.cells) byte) }
        ensures unchanged { OnErr result (self.new.cells ≡ self.old.cells) }
        ensures room { room self.old ≤ room self.new }
        ensures succeeds { 16 ≤ self.old.spare → IsOk result }
    {
        self.append(mfm_word(self.last_cell(), byte) as u64, 16)
    }

    /// The list's last cell, or 0 where the list is empty.
    fn last_cell(&self) -> bool
        ensures { result ≡ last_cell self.now.cells }
    {
        match self.len().checked_sub(1) {
            Some(place) => self.cell(place),
            None => false,
        }
    }

    /// Appends `count` cells, 1 to 32, the bits of a number below 2^`count`, high bit first.
    fn append(&mut self, bits: u64, count: u32) -> Result<(), Memory>
        requires some { 1 ≤ count }
        requires most { count ≤ 32 }
        requires fits { bits < 2 ^ count }
        ensures cells { OnOk result (self.new.cells ≡ self.old.cells ++ word_cells count bits) }
        ensures unchanged { OnErr result (self.new.cells ≡ self.old.cells) }
        ensures room { room self.old ≤ room self.new }
        ensures succeeds { count ≤ self.old.spare → IsOk result }
    {
        let free = 64 - self.filled;
        if count < free {
            self.last = (self.last << count) | bits;
            self.filled += count;
            return Ok(());
        }
        if self.words.len() >= MOST_WORDS {
            return Err(Memory);
        }
        let over = count - free;
        self.words.push((self.last << free) | (bits >> over))?;
        self.last = bits % (1 << over);
        self.filled = over;
        Ok(())
    }
}

/// The greatest of some counts, or 0 of none: the least number that none of them is above.
pub fn longest_run(counts: &[u8]) -> u8
    ensures bound { All (λ count. count ≤ result) counts.now }
    ensures least { (most : ℕ) → All (λ count. count ≤ most) counts.now → result ≤ most }
{
    let mut longest = 0;
    for place in 0..counts.len() {
        longest = counts[place].max(longest);
    }
    longest
}

/// The runs of eight counts, each of 1 to 4: their cells as the low bits of a number, high bit first, and how many they
/// are.
fn joined_runs(counts: &[u8]) -> (u64, u32)
    requires eight { length counts.now ≡ 8 }
    requires short { All IsShortRun counts.now }
    ensures cells { word_cells result.1 result.0 ≡ flat_map run_cells counts.now }
    ensures fits { result.0 < 2 ^ result.1 }
    ensures least { length counts.now ≤ result.1 }
    ensures most { result.1 ≤ 4 * length counts.now }
{
    let (first, before) = four_runs(counts[0], counts[1], counts[2], counts[3]);
    let (second, behind) = four_runs(counts[4], counts[5], counts[6], counts[7]);
    (first << behind | second, before + behind)
}

/// The runs of four counts, each of 1 to 4, as those of eight, from the table.
fn four_runs(first: u8, second: u8, third: u8, fourth: u8) -> (u64, u32)
    requires short { All IsShortRun (first ∷ second ∷ third ∷ fourth ∷ []) }
    ensures cells { word_cells result.1 result.0 ≡ flat_map run_cells (first ∷ second ∷ third ∷ fourth ∷ []) }
    ensures fits { result.0 < 2 ^ result.1 }
    ensures least { 4 ≤ result.1 }
    ensures most { result.1 ≤ 16 }
{
    let place = place_of_four(first, second, third, fourth);
    let cells = sum_of_four(first, second, third, fourth);
    (FOUR_RUNS[place] as u64, cells)
}

/// The place of four counts, each of 1 to 4, in the table.
fn place_of_four(first: u8, second: u8, third: u8, fourth: u8) -> usize
    requires short { All IsShortRun (first ∷ second ∷ third ∷ fourth ∷ []) }
    ensures { result ≡ 4 * (4 * (4 * first + second) + third) + fourth - 85 }
{
    let counts = bytes_in_row(first, second, third, fourth);
    ((counts - ONES).wrapping_mul(PLACES) >> 24) as usize
}

/// The sum of four counts, each of 1 to 4.
fn sum_of_four(first: u8, second: u8, third: u8, fourth: u8) -> u32
    requires short { All IsShortRun (first ∷ second ∷ third ∷ fourth ∷ []) }
    ensures { result ≡ first + second + third + fourth }
{
    bytes_in_row(first, second, third, fourth).wrapping_mul(ONES) >> 24
}

/// Four bytes as one number, the first lowest, as they stand in memory.
fn bytes_in_row(first: u8, second: u8, third: u8, fourth: u8) -> u32
    ensures { result ≡ first + 2 ^ 8 * second + 2 ^ 16 * third + 2 ^ 24 * fourth }
{
    first as u32 + ((second as u32) << 8) + ((third as u32) << 16) + ((fourth as u32) << 24)
}

/// The bits of a byte with a zero before each: a number of 16 bits.
fn spread(byte: u8) -> u32
    ensures { result ≡ spread_of byte }
{
    let nibbles = (byte as u32 | (byte as u32) << 4) & 0x0F0F;
    let pairs = (nibbles | nibbles << 2) & 0x3333;
    (pairs | pairs << 1) & 0x5555
}

/// The 16 cells of a byte in FM as a number, high bit first.
fn fm_word(byte: u8) -> u32
    ensures cells { word_cells 16 result ≡ fm byte }
    ensures bound { result < 2 ^ 16 }
{
    spread(byte) | 0xAAAA
}

/// The 16 cells of a byte in MFM as a number, high bit first, after the data bit `before`.
fn mfm_word(before: bool, byte: u8) -> u32
    ensures cells { word_cells 16 result ≡ mfm before byte }
    ensures bound { result < 2 ^ 16 }
{
    let bits = spread(byte);
    let neighbours = bits << 1 | bits >> 1 | (before as u32) << 15;
    bits | (!neighbours & 0xAAAA)
}
