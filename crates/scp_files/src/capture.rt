ghost use Rattle.std.specs.Prelude.{◌≡◌, ◌<◌, ◌≤◌, ◌^◌, ◌+◌, ◌*◌, ◌++◌, ◌&&◌, ℕ, List, [], ◌∷◌, length, nat_le, nat_lt, All, OnOk, false};
ghost use Rattle.flux_base.specs.Counts.{Counts};
ghost use Rattle.flux_base.specs.World.{source_counts};
ghost use Rattle.index_turns.specs.Track.{KeepsRoom, room_of_indexes, room_of_times};
ghost use Rattle.track_rings.specs.Rings.{last_in};
ghost use Rattle.scp_files.specs.Captures.{Holds, MOST_INDEXES, MOST_REVOLUTIONS, ReadsRevolution, is_read_fault};
ghost use Rattle.scp_files.specs.Streams.{Says};
ghost use Rattle.scp_files.specs.Tracks.{MOST_ENTRIES, words};
ghost use Rattle.scp_files.specs.inside.Noting.{Noted, ReadsBytes, Turned, is_too_long_at};

use crate::fault::{CaptureRefused, RevolutionFault};
use crate::filling::fill;
use crate::head::Revolution;
use crate::stream::{blocks_until, last_time, stream_bytes};
use crate::units::{entry_units, ticks};
use flux_base::Source;
use flux_writer::capture_law;
use index_turns::TrackFlux;
use kryo_stream::StreamFault;
use std::marker::Model;

/// The first time, in ticks, that is too late for a stream's numbers.
const END_OF_TIME: u64 = 1 << 32;

/// The most bytes of a stream.
const LIMIT: u64 = 4194304;

/// The most entries of a track, in all its revolutions, and the most revolutions.
const MOST_ENTRIES: u64 = 4194304;

const MOST_REVOLUTIONS: u8 = 255;

/// How many bytes of entries are read together.
const PIECE: usize = 4096;

/// The transitions and index times of a track, while its revolutions are read one after the other. No call takes
/// memory.
///
/// Contracts see besides how many entries and revolutions there were, and how many units each of them took together.
#[derive(Drop)]
pub struct Capture {
    flux: TrackFlux,
    resolution: u8,
    entries: u32,
    units: u64,
    revolutions: u8,
    moment: u64,
    falls: bool,
}

impl Model for Capture {
    ghost use Rattle.std.specs.Prelude.{◌≤◌, ◌<◌, ◌*◌, ◌+◌, length, All};
    ghost use Rattle.index_turns.specs.Track.{room_of_indexes, room_of_times};
    ghost use Rattle.scp_files.specs.Captures.{CaptureState, MOST_INDEXES};
    ghost use Rattle.scp_files.specs.Tracks.{MOST_ENTRIES};
    ghost use Rattle.scp_files.specs.Units.{ticks_of};

    ghost Value = { CaptureState };

    ghost view = { λ c. record {
      flux = c.flux;
      resolution = c.resolution;
      entries = c.entries;
      units = c.units;
      revolutions = c.revolutions;
      moment = c.moment;
      falls = c.falls;
    } };

    ghost invariant = { λ c.
        ((MOST_ENTRIES ≤ room_of_times c.flux) × (MOST_INDEXES ≤ room_of_indexes c.flux))
        × ((length c.flux.times ≤ c.entries) × (c.entries ≤ MOST_ENTRIES) × (c.units ≤ 65536 * c.entries))
        × ((0 < length c.flux.indexes) × (length c.flux.indexes ≤ c.revolutions + 1)
        × (c.moment ≤ 4294967295 * c.revolutions) × (c.revolutions ≤ 255))
        × (All (λ time. time ≤ ticks_of c.resolution c.units) c.flux.times
        × All (λ index. index ≤ ticks_of c.resolution c.moment) c.flux.indexes) };
}

impl Capture {
    /// A capture of no revolution, by units of `resolution` + 1 times 25 ns, in the room of a track.
    pub fn begin(flux: TrackFlux, resolution: u8) -> Capture
        requires times { MOST_ENTRIES ≤ room_of_times flux }
        requires indexes { MOST_INDEXES ≤ room_of_indexes flux }
        ensures holds { Holds [] [] result }
        ensures resolution { result.resolution ≡ resolution }
    {
        let mut flux = flux;
        begin_track(&mut flux);
        Capture {
            flux,
            resolution,
            entries: 0,
            units: 0,
            revolutions: 0,
            moment: 0,
            falls: false,
        }
    }

    /// Begins anew, by units of `resolution` + 1 times 25 ns: a capture of no revolution.
    pub fn restart(&mut self, resolution: u8)
        ensures holds { Holds [] [] self.new }
        ensures resolution { self.new.resolution ≡ resolution }
    {
        begin_track(&mut self.flux);
        self.resolution = resolution;
        self.entries = 0;
        self.units = 0;
        self.revolutions = 0;
        self.moment = 0;
        self.falls = false;
    }

    /// Whether there is room for a revolution: a track has at most 255, of at most 4194304 entries together.
    pub fn takes(&self, revolution: Revolution) -> bool
        ensures { result ≡ (nat_le (self.now.entries + revolution.entries) MOST_ENTRIES
            && nat_lt self.now.revolutions MOST_REVOLUTIONS) }
    {
        u64::from(self.entries) + u64::from(revolution.entries) <= MOST_ENTRIES
            && self.revolutions < MOST_REVOLUTIONS
    }

    /// Reads the entries of a revolution from a source that is at the first of them. After each `Err` the capture is
    /// what it was.
    pub fn read_revolution<S: Source>(
        &mut self,
        revolution: Revolution,
        source: &mut S,
    ) -> Result<(), RevolutionFault>
        requires few { self.old.entries + revolution.entries ≤ MOST_ENTRIES }
        requires turns { self.old.revolutions < 255 }
        ensures reads { ReadsRevolution (S.left source.old) (S.left source.new) revolution self.old self.new result }
        ensures resolution { self.new.resolution ≡ self.old.resolution }
        ensures counts { Counts (is_read_fault result) (source_counts S.Source source.old)
            (source_counts S.Source source.new) }
    {
        let entries = self.entries;
        let units = self.units;
        let transitions = self.flux.times().len();
        match self.read_entries(revolution.entries, source) {
            Ok(()) => {
                self.end_revolution(revolution.duration);
                Ok(())
            }
            Err(fault) => {
                self.entries = entries;
                self.units = units;
                self.flux.keep_times(transitions);
                Err(fault)
            }
        }
    }

    /// What the stream is that the capture stands for: one without a fault, whose times are those of `flux`; or a
    /// refused one.
    pub fn finish(&self) -> Result<(), CaptureRefused>
        ensures says { (values durations : List ℕ) → Holds values durations self.now
            → Says self.now.resolution values durations self.now.flux result }

        // So the times of a stream can be written.
        ensures few { length self.now.flux.times ≤ MOST_ENTRIES }
        ensures turns { length self.now.flux.indexes ≤ 256 }
        ensures more { OnOk result (2 ≤ length self.now.flux.indexes) }
        ensures early { OnOk result (All (λ time. time < 2 ^ 32) self.now.flux.times) }
        ensures near { OnOk result (All (λ index. index < 2 ^ 32) self.now.flux.indexes) }
    {
        capture_law();
        if self.is_too_long() {
            return Err(CaptureRefused::TooLong);
        }
        let times = self.flux.times();
        let indexes = self.flux.indexes();
        if self.falls {
            let block = blocks_until(times, self.last_index()) + indexes.len() as u32;
            return Err(CaptureRefused::Refused {
                block,
                fault: StreamFault::IndexOrder,
            });
        }
        if indexes.len() < 2 {
            let block = blocks_until(times, END_OF_TIME) + indexes.len() as u32 + 1;
            return Err(CaptureRefused::Refused {
                block,
                fault: StreamFault::NoTurn,
            });
        }
        Ok(())
    }

    /// The transitions, and the index times up to the first that does not rise.
    pub fn flux(&self) -> &TrackFlux
        ensures { result.now ≡ self.now.flux }
    {
        &self.flux
    }

    /// The room, with the transitions and index times in it.
    pub fn into_flux(self) -> TrackFlux
        ensures value { result ≡ self.flux }
        ensures times { MOST_ENTRIES ≤ room_of_times result }
        ensures indexes { MOST_INDEXES ≤ room_of_indexes result }
    {
        self.flux
    }

    /// Whether a time is too late for a stream, or the stream would be longer than one may be.
    fn is_too_long(&self) -> bool
        ensures value { result ≡ is_too_long_at self.now }
        ensures early { result ≡ false → All (λ time. time < 2 ^ 32) self.now.flux.times }
        ensures near { result ≡ false → All (λ index. index < 2 ^ 32) self.now.flux.indexes }
        ensures few { length self.now.flux.times ≤ MOST_ENTRIES }
        ensures turns { length self.now.flux.indexes ≤ 256 }
    {
        let times = self.flux.times();
        if last_time(times) >= END_OF_TIME || ticks(self.resolution, self.moment) >= END_OF_TIME {
            return true;
        }
        stream_bytes(times) + 16 * (u64::from(self.revolutions) + 1) + 16 > LIMIT
    }

    /// Reads so many entries.
    fn read_entries<S: Source>(&mut self, count: u32, source: &mut S) -> Result<(), RevolutionFault>
        requires few { self.old.entries + count ≤ MOST_ENTRIES }
        ensures reads { ReadsBytes (S.left source.old) (S.left source.new) (2 * count) self.old self.new result }
        ensures counts { Counts (is_read_fault result) (source_counts S.Source source.old)
            (source_counts S.Source source.new) }
    {
        let mut left = 2 * count as usize;
        let mut buffer = [0; PIECE];
        while left > 0 {
            let piece = left.min(PIECE);
            match self.read_piece(&mut buffer[..piece], source) {
                Ok(()) => left -= piece,
                Err(fault) => return Err(fault),
            }
        }
        Ok(())
    }

    /// Reads so many bytes of entries as the buffer has.
    fn read_piece<S: Source>(
        &mut self,
        buffer: &mut [u8],
        source: &mut S,
    ) -> Result<(), RevolutionFault>
        requires few { 2 * self.old.entries + length buffer.old ≤ 8388608 }
        ensures len { length buffer.new ≡ length buffer.old }
        ensures reads { ReadsBytes (S.left source.old) (S.left source.new) (length buffer.old) self.old self.new result }
        ensures counts { Counts (is_read_fault result) (source_counts S.Source source.old)
            (source_counts S.Source source.new) }
    {
        match fill(buffer, source) {
            Ok(filled) => {
                if filled < buffer.len() {
                    return Err(RevolutionFault::Ended);
                }
                self.note(buffer);
                Ok(())
            }
            Err(_) => Err(RevolutionFault::ReadFault),
        }
    }

    /// Notes entries, of two bytes each.
    fn note(&mut self, bytes: &[u8])
        requires { self.old.entries + length (words bytes.now) ≤ MOST_ENTRIES }
        ensures { Noted (words bytes.now) self.old self.new }
    {
        let mut rest = bytes;
        while let [high, low, behind @ ..] = rest {
            self.note_entry(u16::from(*high) * 256 + u16::from(*low));
            rest = behind;
        }
    }

    /// Notes one entry.
    #[inline]
    fn note_entry(&mut self, value: u16)
        requires { self.old.entries < MOST_ENTRIES }
        ensures { Noted (value ∷ []) self.old self.new }
    {
        self.entries += 1;
        self.units += entry_units(value);
        if value != 0 {
            let time = ticks(self.resolution, self.units);
            self.flux.push_reserved(time);
        }
    }

    /// Notes the end of a revolution of so many units.
    fn end_revolution(&mut self, duration: u32)
        requires { self.old.revolutions < 255 }
        ensures { Turned duration self.old self.new }
    {
        self.revolutions += 1;
        self.moment += u64::from(duration);
        if self.falls {
            return;
        }
        let time = ticks(self.resolution, self.moment);
        if self.last_index() < time {
            match self.flux.push_index(time) {
                Ok(()) => {}
                // There is room.
                Err(_) => unreachable!(),
            }
        } else {
            self.falls = true;
        }
    }

    /// The last index time that is kept.
    fn last_index(&self) -> u64
        ensures value { result ≡ last_in self.now.flux.indexes }
        ensures greatest { All (λ index. index ≤ result) self.now.flux.indexes }
    {
        let indexes = self.flux.indexes();
        indexes[indexes.len() - 1]
    }
}

/// Makes it the transitions and index times of a track of no revolution: none but the index at its begin.
fn begin_track(flux: &mut TrackFlux)
    requires indexes { 256 ≤ room_of_indexes flux.old }
    ensures times { flux.new.times ≡ [] }
    ensures indexes { flux.new.indexes ≡ 0 ∷ [] }
    ensures room { KeepsRoom flux.old flux.new }
{
    flux.clear();
    match flux.push_index(0) {
        Ok(()) => {}
        // There is room.
        Err(_) => unreachable!(),
    }
}
