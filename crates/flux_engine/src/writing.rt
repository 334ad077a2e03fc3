//! What a track comes to, written out.

ghost use Rattle.std.specs.Prelude.{◌≡◌, ◌+◌, ◌≤◌, ◌<◌, ◌++◌, List, [], ◌∷◌, map, replicate, unwrap_or, is_err, IfOk};
ghost use Rattle.std.specs.Prelude.{OnOk, OnErr};
ghost use Rattle.std.specs.Io.KnownBytes.{Appends};
ghost use Rattle.flux_base.specs.Bounds.{MOST_SECTOR_BYTES};
ghost use Rattle.flux_base.specs.Counts.{Counts};
ghost use Rattle.flux_base.specs.Outside.{AppendsPart};
ghost use Rattle.flux_base.specs.World.{sink_counts};
ghost use Rattle.sector_images.specs.Places.{IsTrack};
ghost use Rattle.turn_merge.specs.Book.{StandsFor, IsKnown};
ghost use Rattle.turn_merge.specs.Readings.{NotedReading, agreed, verdict as verdict_over};
ghost use Rattle.turn_merge.specs.declared.verdict.Verdict.{Verdict as SectorVerdict};
ghost use Rattle.flux_engine.specs.Recordings.{sectors_of as sectors_in};
ghost use Rattle.flux_engine.specs.Tracks.{image_of, lines_by, totals_of, numbers};
ghost use Rattle.flux_engine.specs.Writing.{Knows, AreFew, IsSum, sum_of};

use disk_recordings::{Sectors, sectors_of};
use flux_base::{Failed, MOST_SECTOR_BYTES, Sink, TrackId, write_whole};
use sector_images::{Format, image_sector, tracks_keep_bounds};
use sector_report::{Naming, Totals, named_line, write_line};
use turn_merge::{Book, Verdict};

/// The bytes of a sector that has no good verdict.
const ZEROS: [u8; MOST_SECTOR_BYTES] = [0; MOST_SECTOR_BYTES];

/// Writes the track's part of the image, a piece for each sector, in the order of their places.
pub fn write_image<W: Sink>(
    format: Format,
    track: TrackId,
    book: &Book,
    image: &mut W,
) -> Result<(), Failed>
    requires track { IsTrack format track }
    requires known { Knows (sectors_in format track) book.now }
    ensures ok { OnOk result
        ((readings : List NotedReading) → StandsFor book.now readings
        → Appends (W.written image.old) (W.written image.new) (image_of format track readings)) }
    ensures err { OnErr result
        ((readings : List NotedReading) → StandsFor book.now readings
        → AppendsPart (W.written image.old) (W.written image.new) (image_of format track readings)) }
    ensures counts { Counts (is_err result) (sink_counts W.Sink image.old) (sink_counts W.Sink image.new) }
{
    tracks_keep_bounds();
    let sectors = sectors_of(format, track);
    for number in 0..sectors.count {
        let sector = image_sector(format, track, number);
        let bytes = image_bytes(book, sector, sectors.size);
        match write_whole(image, bytes) {
            Ok(()) => {}
            Err(failed) => return Err(failed),
        }
    }
    Ok(())
}

/// A sector's bytes in the image: its data where its verdict is good, and else zeros.
fn image_bytes<'a>(book: &'a Book, sector: u8, size: u16) -> &'a [u8]
    requires known { IsKnown book.now sector }
    requires size { size ≤ MOST_SECTOR_BYTES }
    ensures { (readings : List NotedReading) → StandsFor book.now readings
        → result.now ≡ unwrap_or (agreed readings sector) (replicate size 0) }
{
    match book.bytes(sector) {
        Some(bytes) => bytes,
        None => &ZEROS[..usize::from(size)],
    }
}

/// Writes the track's lines, which name so much of each source, each in one piece, and gives its totals.
pub fn write_lines<N: Sink>(
    naming: Naming,
    track: TrackId,
    sectors: Sectors,
    book: &Book,
    notes: &mut N,
) -> Result<Totals, Failed>
    requires cylinder { track.cylinder < 100 }
    requires few { AreFew sectors }
    requires known { Knows sectors book.now }
    ensures ok { OnOk result
        ((readings : List NotedReading) → StandsFor book.now readings
        → Appends (N.written notes.old) (N.written notes.new) (lines_by naming track sectors readings)) }
    ensures counted { IfOk result (λ totals. IsSum totals × (totals.sectors ≡ sectors.count)) }
    ensures totals { IfOk result
        (λ totals.
        (readings : List NotedReading) → StandsFor book.now readings
        → totals ≡ totals_of (map (verdict_over readings) (numbers sectors))) }
    ensures err { OnErr result
        ((readings : List NotedReading) → StandsFor book.now readings
        → AppendsPart (N.written notes.old) (N.written notes.new) (lines_by naming track sectors readings)) }
    ensures counts { Counts (is_err result) (sink_counts N.Sink notes.old) (sink_counts N.Sink notes.new) }
{
    let mut totals = no_totals();
    for index in 0..sectors.count {
        let sector = sectors.first + index;
        let verdict = book.verdict(sector);
        let line = named_line(naming, track, sector, &verdict);
        match write_line(notes, &line) {
            Ok(()) => count_verdict(&mut totals, verdict),
            Err(failed) => return Err(failed),
        }
    }
    Ok(totals)
}

/// The totals of no sector.
pub fn no_totals() -> Totals
    ensures value { result ≡ totals_of [] }
    ensures sum { IsSum result }
{
    Totals {
        sectors: 0,
        good: 0,
        bad: 0,
        missing: 0,
        contradictory: 0,
    }
}

/// Counts a sector of this verdict.
pub fn count_verdict(totals: &mut Totals, verdict: Verdict)
    requires sum { IsSum totals.old }
    requires few { totals.old.sectors < 1000 }
    ensures sum { IsSum totals.new }
    ensures one { totals.new.sectors ≡ totals.old.sectors + 1 }
    ensures counted { (verdicts : List SectorVerdict) → totals.old ≡ totals_of verdicts
        → totals.new ≡ totals_of (verdicts ++ verdict ∷ []) }
{
    totals.sectors += 1;
    match verdict {
        Verdict::Good { .. } => totals.good += 1,
        Verdict::Contradictory { .. } => totals.contradictory += 1,
        Verdict::Bad { .. } => totals.bad += 1,
        Verdict::Missing => totals.missing += 1,
    }
}

/// Adds the totals of one track more.
pub fn add_totals(totals: &mut Totals, more: Totals)
    requires sum { IsSum totals.old }
    requires more { IsSum more }
    requires few { totals.old.sectors + more.sectors < 1000000 }
    ensures value { totals.new ≡ sum_of totals.old more }
    ensures sum { IsSum totals.new }
{
    totals.sectors += more.sectors;
    totals.good += more.good;
    totals.bad += more.bad;
    totals.missing += more.missing;
    totals.contradictory += more.contradictory;
}
