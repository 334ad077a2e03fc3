ghost use Rattle.std.specs.Prelude.{◌≡◌, ◌<◌, [], Some, length, min, take, drop, IfOk, IsOk};
ghost use Rattle.std.specs.Io.{ReadsAtMost};
ghost use Rattle.std.specs.Io.KnownBytes.{ReadConsumes};
ghost use Rattle.sector_images.specs.Places.{tracks};
ghost use Rattle.flux_trial.specs.Image.{trial_image};
ghost use Rattle.flux_trial.specs.Tracks.{trial_input, trial_stream};
ghost use Rattle.flux_trial.specs.inside.Giving.{HasTrialRoom, left_of};

use crate::flux::trial_flux;
use crate::image::trial_image;
use crate::kept::Kept;
use cell_bits::Cells;
use flux_base::{Failed, Memory, Source};
use flux_engine::track_ring;
use flux_writer::{write_times, written_law};
use index_turns::TrackFlux;
use sector_images::{Format, image_size, nominal, track_count, track_id, tracks_keep_bounds};
use std::alloc::Global;
use std::marker::Model;

/// The most cells of a ring.
const MOST_CELLS: usize = 262_144;

/// The most transitions of what passes of a ring.
const MOST_TIMES: usize = 1_048_576;

/// Where the turns of a track begin, and where the last one ends.
const INDEXES: usize = 4;

/// A source that gives the streams of a trial's tracks, and makes each when those before it are used up.
#[derive(Drop)]
pub(crate) struct TrialSource {
    format: Format,
    seed: u32,
    image: Vec<u8>,
    ring: Cells,
    flux: TrackFlux,
    stream: Kept,
    /// How many bytes of the stream were given.
    given: usize,
    /// The number of the next track.
    next: u32,
}

impl Model for TrialSource {
    ghost use Rattle.std.specs.Prelude.{drop};
    ghost use Rattle.flux_trial.specs.inside.Giving.{HasTrialRoom, IsGiving, SourceState, streams_from};

    ghost Value = { SourceState };

    ghost view = { λ s.
        record { format = s.format; at_hand = drop s.given s.stream; later = streams_from s.format s.seed s.next } };

    ghost invariant = { λ s.
        HasTrialRoom s.format s.ring s.flux × IsGiving s.format s.seed s.image.items s.next s.given s.stream };
}

impl TrialSource {
    /// Takes all memory that the streams of a format's tracks need.
    pub(crate) fn reserve(alloc: Global, format: Format) -> Result<TrialSource, Memory>
        ensures { IfOk result (λ source. source.format ≡ format) }
    {
        tracks_keep_bounds();
        let mut image = vec![in alloc; 0u8; image_size(format) as usize]?;
        trial_image(format, 0, &mut image);
        let mut ring = Cells::new(alloc);
        ring.reserve(MOST_CELLS)?;
        let mut flux = TrackFlux::new(alloc);
        flux.reserve(MOST_TIMES, INDEXES)?;
        let stream = Kept::reserve(alloc)?;
        Ok(TrialSource {
            format,
            seed: 0,
            image,
            ring,
            flux,
            stream,
            given: 0,
            next: 0,
        })
    }

    /// Begins the trial of a number.
    pub(crate) fn start(&mut self, seed: u32)
        ensures format { self.new.format ≡ self.old.format }
        ensures left { left_of self.new ≡ trial_input self.old.format seed }
    {
        trial_image(self.format, seed, &mut self.image);
        self.seed = seed;
        self.stream.clear();
        self.given = 0;
        self.next = 0;
    }

    /// Makes the next track's stream, where the one before it was given whole.
    fn refill(&mut self)
        ensures format { self.new.format ≡ self.old.format }
        ensures left { left_of self.new ≡ left_of self.old }
        ensures some { self.new.at_hand ≡ [] → self.new.later ≡ [] }
    {
        if self.given < self.stream.bytes().len() {
            return;
        }
        if self.next == track_count(self.format) {
            return;
        }
        write_track_of(
            self.format,
            self.seed,
            self.next,
            &self.image,
            &mut self.ring,
            &mut self.flux,
            &mut self.stream,
        );
        self.given = 0;
        self.next += 1;
    }

    /// Copies as many bytes of the stream as fit to the buffer's front, and says how many.
    fn give(&mut self, buffer: &mut [u8]) -> usize
        ensures count { result ≡ min (length buffer.old) (length self.old.at_hand) }
        ensures front { take result buffer.new ≡ take result self.old.at_hand }
        ensures len { length buffer.new ≡ length buffer.old }
        ensures rest { self.new.at_hand ≡ drop result self.old.at_hand }
        ensures later { self.new.later ≡ self.old.later }
        ensures format { self.new.format ≡ self.old.format }
    {
        let bytes = &self.stream.bytes()[self.given..];
        let count = buffer.len().min(bytes.len());
        buffer[..count].copy_from_slice(&bytes[..count]);
        self.given += count;
        count
    }
}

impl Source for TrialSource {
    ghost left = { λ s. Some (left_of s) };

    ghost faults = { λ _. 0 };

    fn read(&mut self, buffer: &mut [u8]) -> Result<usize, Failed>
        ensures bound { ReadsAtMost result buffer.new }
        ensures bytes { ReadConsumes (Some (left_of self.old)) (Some (left_of self.new)) result buffer.new }
        ensures never_fails { IsOk result }
    {
        self.refill();
        Ok(self.give(buffer))
    }
}

/// Makes `stream` what the drive of a trial gives of a track.
fn write_track_of(
    format: Format,
    seed: u32,
    number: u32,
    image: &[u8],
    ring: &mut Cells,
    flux: &mut TrackFlux,
    stream: &mut Kept,
)
    requires track { number < length (tracks format) }
    requires image { image.now ≡ trial_image format seed }
    requires room { HasTrialRoom format ring.old flux.old }
    ensures stream { stream.new ≡ trial_stream format seed number }
    ensures room { HasTrialRoom format ring.new flux.new }
{
    tracks_keep_bounds();
    written_law();
    let cell = nominal(format, track_id(format, number));
    match track_ring(format, number, image, ring) {
        Ok(()) => {}
        // There is room for the longest ring.
        Err(_) => unreachable!(),
    }
    match trial_flux(ring, cell, seed, number, flux) {
        Ok(()) => {}
        // There is room for four times for each cell.
        Err(_) => unreachable!(),
    }
    stream.clear();
    match write_times(flux, stream) {
        Ok(()) => {}
        // The stream is shorter than a stream may be.
        Err(_) => unreachable!(),
    }
}
