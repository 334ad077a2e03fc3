ghost use Rattle.std.specs.Prelude.{◌≡◌, ℕ, List, ◌+◌, ◌^◌, ◌≤◌, ◌<◌, ◌++◌, [], ◌∷◌, length, Some, All, is_err, IfOk};
ghost use Rattle.std.specs.Prelude.{OnOk, OnErr, IsOk, Err, true, false};
ghost use Rattle.std.specs.Io.KnownBytes.{IsAtEnd};
ghost use Rattle.flux_base.specs.Counts.{Counts};
ghost use Rattle.flux_base.specs.World.{source_counts};
ghost use Rattle.index_turns.specs.Track.{KeepsRoom};
ghost use Rattle.kryo_stream.specs.declared.fault.StreamFault.TheVariants.{Truncated};
ghost use Rattle.kryo_stream.specs.Bench.{HasFullBench, KeepsBenchRoom, IsNoted, IsSized};
ghost use Rattle.kryo_stream.specs.inside.Held.{Took};
ghost use Rattle.kryo_stream.specs.Outcome.{IsRead, IsReadOfInput, IsReadWhereNeeded, IsNotMemory, TrackCause};
ghost use Rattle.kryo_stream.specs.Outcome.{is_read_fault, HasFullRoom, IsSmall, input_of};
ghost use Rattle.kryo_stream.specs.Pieces.{piece_at};
ghost use Rattle.kryo_stream.specs.inside.Pieces.{IsText};
ghost use Rattle.kryo_stream.specs.inside.Progress.{TakesOpenly, IsReading, ReadsOn, IsBlockOpen, TakesBlock};
ghost use Rattle.kryo_stream.specs.inside.Progress.{IsSkipped, IsUnpadded};
ghost use Rattle.kryo_stream.specs.Reads.{reads_at};
ghost use Rattle.kryo_stream.specs.Stream.{total_bytes};
ghost use Rattle.kryo_stream.specs.Tally.{new_times};
ghost use Rattle.kryo_stream.specs.inside.Tally.{IsWithin, MayFollow};

use crate::before::Before;
use crate::bench::StreamBench;
use crate::block::{Block, SpelledBlock};
use crate::fault::{StreamFault, TrackFault};
use crate::front::{LIMIT, flux_reach, front, text_size, whole_block};
use crate::intake::{Intake, More};
use crate::kept::keep_flux;
use crate::padding::padding_at_hand;
use flux_base::{Failed, Memory, Source};
use index_turns::TrackFlux;

/// Reads one stream: the input is what the intake holds, followed by what the source gives, without the
/// padding at its front where a stream was read through this intake before.
///
/// `Ok` means that the input begins with a stream. `flux` then holds the times of its transitions and its
/// index times, in ticks, and what follows its End block stays. `Refused` names the first fault of the
/// input and its block. The source is read only where the bytes at hand do not tell the answer.
/// After each `Err` the intake may not be used again for reading.
pub fn read_track<S: Source>(
    source: &mut S,
    intake: &mut Intake,
    flux: &mut TrackFlux,
    bench: &mut StreamBench,
) -> Result<(), TrackFault>
    // What the answer says, whether the source tells its bytes or not, and of the input where it does.
    ensures read { IsRead (S.left source.old) (S.left source.new) intake.old.used intake.old.held intake.new.held
        flux.new result }
    ensures told { (bytes : List ℕ) → S.left source.old ≡ Some bytes
        → IsReadOfInput (input_of intake.old.used (intake.old.held ++ bytes)) (S.left source.new) intake.new.held
        flux.new result }
    ensures used { intake.new.used ≡ true }
    ensures bound { length intake.new.held ≤ 4096 }

    // The source is read only where the bytes at hand do not tell the answer.
    ensures needed { IsReadWhereNeeded (reads_at S.Source source.old) (reads_at S.Source source.new) intake.old.used
        intake.old.held }

    // The track is as small as the limit of a stream makes it.
    ensures few_times { length flux.new.times ≤ 4194304 }
    ensures few_indexes { length flux.new.indexes ≤ 262144 }
    ensures times_within { All (λ time. time ≤ 2 ^ 38) flux.new.times }
    ensures indexes_within { All (λ time. time < 2 ^ 39) flux.new.indexes }

    // After a fault the track is empty. No room is lost, and the full room is enough.
    ensures no_times { OnErr result (flux.new.times ≡ []) }
    ensures no_indexes { OnErr result (flux.new.indexes ≡ []) }
    ensures room { KeepsRoom flux.old flux.new }
    ensures bench { KeepsBenchRoom bench.old bench.new }
    ensures memory { HasFullRoom flux.old → HasFullBench bench.old → IsNotMemory result }

    ensures later { S.faults source.old ≤ S.faults source.new }
    ensures cause { TrackCause (S.faults source.old) (S.faults source.new) result }
    ensures counts { Counts (is_read_fault result) (source_counts S.Source source.old)
        (source_counts S.Source source.new) }
{
    flux.clear();
    match begin(source, intake) {
        Ok(More::Taken) => {}
        Ok(More::End) => {
            return Err(TrackFault::Refused {
                block: 0,
                fault: StreamFault::Truncated,
            });
        }
        Err(_) => return Err(TrackFault::ReadFault),
    }
    match read_stream(source, intake, flux, bench) {
        Ok(()) => Ok(()),
        Err(fault) => {
            flux.clear();
            Err(fault)
        }
    }
}

/// Notes that a stream is read through the intake, and passes over the padding in front of it. `End` says
/// that the input is nothing but padding.
fn begin<S: Source>(source: &mut S, intake: &mut Intake) -> Result<More, Failed>
    ensures unpadded { IsUnpadded (reads_at S.Source source.old) (reads_at S.Source source.new) intake.old.used
        intake.old.held intake.new.held result }
    ensures used { intake.new.used ≡ true }
    ensures bound { length intake.new.held ≤ 4096 }
    ensures counts { Counts (is_err result) (source_counts S.Source source.old) (source_counts S.Source source.new) }
{
    if !intake.is_used() {
        intake.begin();
        return Ok(More::Taken);
    }
    pass_padding(source, intake)
}

/// Passes over the padding at the front of the input.
fn pass_padding<S: Source>(source: &mut S, intake: &mut Intake) -> Result<More, Failed>
    ensures unpadded { IsUnpadded (reads_at S.Source source.old) (reads_at S.Source source.new) true intake.old.held
        intake.new.held result }
    ensures used { intake.new.used ≡ intake.old.used }
    ensures bound { length intake.new.held ≤ 4096 }
    ensures counts { Counts (is_err result) (source_counts S.Source source.old) (source_counts S.Source source.new) }
{
    loop {
        match padding_at_hand(intake.bytes()) {
            Some(count) => {
                intake.pass(count);
                return Ok(More::Taken);
            }
            None => {}
        }
        match intake.more(source) {
            Ok(More::Taken) => {}
            Ok(More::End) => return Ok(More::End),
            Err(failed) => return Err(failed),
        }
    }
}

/// Reads one stream into the empty `flux`.
fn read_stream<S: Source>(
    source: &mut S,
    intake: &mut Intake,
    flux: &mut TrackFlux,
    bench: &mut StreamBench,
) -> Result<(), TrackFault>
    requires times { flux.old.times ≡ [] }
    requires indexes { flux.old.indexes ≡ [] }
    requires bound { length intake.old.held ≤ 4096 }
    ensures small { OnOk result (IsSmall flux.new) }
    ensures takes { (taken : List ℕ)
        × TakesOpenly false intake.old.held (reads_at S.Source source.old) (reads_at S.Source source.new) taken }
    ensures read { IsRead (S.left source.old) (S.left source.new) false intake.old.held intake.new.held flux.new
        result }
    ensures bound { length intake.new.held ≤ 4096 }
    ensures used { intake.new.used ≡ intake.old.used }
    ensures room { KeepsRoom flux.old flux.new }
    ensures bench { KeepsBenchRoom bench.old bench.new }
    ensures memory { HasFullRoom flux.old → HasFullBench bench.old → IsNotMemory result }
    ensures counts { Counts (is_read_fault result) (source_counts S.Source source.old)
        (source_counts S.Source source.new) }
{
    bench.clear();
    let mut before = Before::start();
    let mut number = 0;
    // Each round passes over one block, and over the in-stream blocks before it, which are
    // nearly all blocks of a track.
    for _ in 0..LIMIT + 1 {
        match pass_in_stream(&mut before, intake, flux, bench) {
            Ok(count) => number += count,
            Err(Memory) => return Err(TrackFault::Memory),
        }
        // A copy, so that the other numbers can stay in registers.
        let stands = before;
        let piece = match take_block(source, intake, &stands) {
            Ok(Ok(piece)) => piece,
            Ok(Err(fault)) => {
                return Err(TrackFault::Refused {
                    block: number,
                    fault,
                });
            }
            Err(_) => return Err(TrackFault::ReadFault),
        };
        match note(number, &piece, &before, flux, bench) {
            Ok(()) => {}
            Err(_) => return Err(TrackFault::Memory),
        }
        if let Block::End = piece.block {
            return bench.resolve(before.counted, number, flux);
        }
        before = before.behind(&piece);
        number += 1;
    }
    unreachable!()
}

/// Passes over the in-stream blocks that the bytes at hand begin with, as far as they stand there whole, and keeps
/// them. Gives how many they are. Their way is written out, since the way of all blocks takes many times as long.
fn pass_in_stream(
    before: &mut Before,
    intake: &mut Intake,
    flux: &mut TrackFlux,
    bench: &mut StreamBench,
) -> Result<u32, Memory>
    requires read { (x : List ℕ) × (n : ℕ) × IsReading x n intake.old.held before.old flux.old.times bench.old }
    ensures reading { IfOk result
        (λ count.
        ReadsOn count intake.old.held intake.new.held before.old before.new flux.old.times flux.new.times bench.old
        bench.new) }
    ensures bound { length intake.new.held ≤ 4096 }
    ensures used { intake.new.used ≡ intake.old.used }
    ensures indexes { flux.new.indexes ≡ flux.old.indexes }
    ensures room { KeepsRoom flux.old flux.new }
    ensures bench { KeepsBenchRoom bench.old bench.new }
    ensures succeeds { HasFullRoom flux.old → HasFullBench bench.old → IsOk result }
{
    let mut count = 0;
    loop {
        count += pass_flux(before, intake, flux, bench)?;
        let more = pass_block(before, intake, flux, bench)?;
        if more == 0 {
            return Ok(count);
        }
        count += more;
    }
}

/// Passes over the transitions that the bytes at hand begin with, as far as they stand there whole, and keeps
/// them. Gives how many they are.
fn pass_flux(
    before: &mut Before,
    intake: &mut Intake,
    flux: &mut TrackFlux,
    bench: &mut StreamBench,
) -> Result<u32, Memory>
    requires read { (x : List ℕ) × (n : ℕ) × IsReading x n intake.old.held before.old flux.old.times bench.old }
    requires within { IsWithin before.old }
    requires counted { bench.old.counted ≡ before.old.counted }
    ensures reading { IfOk result
        (λ count.
        ReadsOn count intake.old.held intake.new.held before.old before.new flux.old.times flux.new.times bench.old
        bench.new) }
    ensures fewer { IfOk result (λ count. length intake.new.held + count ≤ length intake.old.held) }
    ensures held { OnErr result (intake.new.held ≡ intake.old.held) }
    ensures bound { length intake.new.held ≤ 4096 }
    ensures used { intake.new.used ≡ intake.old.used }
    ensures indexes { flux.new.indexes ≡ flux.old.indexes }
    ensures room { KeepsRoom flux.old flux.new }
    ensures bench { KeepsBenchRoom bench.old bench.new }
    ensures succeeds { length flux.old.times ≤ before.old.offset → HasFullRoom flux.old → HasFullBench bench.old
        → IsOk result }
{
    let reach = flux_reach(before, intake.bytes());
    if reach == 0 {
        return Ok(0);
    }
    flux.reserve_times(reach)?;
    bench.reserve_bytes(reach)?;
    let first = flux.times().len();
    let kept = keep_flux(before, flux.take(), bench.take(), &intake.bytes()[..reach]);
    *flux = kept.flux;
    *bench = kept.bench;
    intake.pass(kept.place);
    *before = Before {
        offset: before.offset + kept.place as u32,
        counted: before.counted + kept.place as u32,
        ended: before.ended,
        time: kept.time,
    };
    Ok((flux.times().len() - first) as u32)
}

/// Passes over the in-stream block that the bytes at hand begin with, if one stands there whole, and
/// keeps it. Gives how many it is.
fn pass_block(
    before: &mut Before,
    intake: &mut Intake,
    flux: &mut TrackFlux,
    bench: &mut StreamBench,
) -> Result<u32, Memory>
    requires within { IsWithin before.old }
    requires times { All (λ time. time ≤ before.old.time) flux.old.times }
    requires counted { bench.old.counted ≡ before.old.counted }
    ensures reading { IfOk result
        (λ count.
        ReadsOn count intake.old.held intake.new.held before.old before.new flux.old.times flux.new.times bench.old
        bench.new) }
    ensures fewer { IfOk result (λ count. length intake.new.held + count ≤ length intake.old.held) }
    ensures held { OnErr result (intake.new.held ≡ intake.old.held) }
    ensures bound { length intake.new.held ≤ 4096 }
    ensures used { intake.new.used ≡ intake.old.used }
    ensures indexes { flux.new.indexes ≡ flux.old.indexes }
    ensures room { KeepsRoom flux.old flux.new }
    ensures bench { KeepsBenchRoom bench.old bench.new }
    ensures succeeds { length flux.old.times ≤ before.old.offset → HasFullRoom flux.old
        → length bench.old.overflows ≤ before.old.offset → HasFullBench bench.old → IsOk result }
{
    let Some(piece) = whole_block(before, intake.bytes()) else {
        return Ok(0);
    };
    note_time(&piece, before, flux)?;
    bench.note_bytes(&piece)?;
    intake.pass(piece.bytes);
    *before = before.behind(&piece);
    Ok(1)
}

/// Passes over the block that the input goes on with, or gives its fault. A call, so that the way of the usual
/// block is short.
#[inline(never)]
fn take_block<S: Source>(
    source: &mut S,
    intake: &mut Intake,
    before: &Before,
) -> Result<Result<SpelledBlock, StreamFault>, Failed>
    requires within { IsWithin before.now }
    ensures takes { TakesBlock (reads_at S.Source source.old) (reads_at S.Source source.new) intake.old.held
        intake.new.held before.now result }
    ensures sized { IfOk result (λ reading. IfOk reading IsSized) }
    ensures bound { length intake.new.held ≤ 4096 }
    ensures used { intake.new.used ≡ intake.old.used }
    ensures counts { Counts (is_err result) (source_counts S.Source source.old) (source_counts S.Source source.new) }
{
    let reading = match next_block(source, intake, before) {
        Ok(reading) => reading,
        Err(failed) => return Err(failed),
    };
    match reading {
        Ok(piece) => {
            intake.pass(piece.bytes);
            Ok(Ok(piece))
        }
        Err(StreamFault::Truncated) => take_text(source, intake, before),
        Err(fault) => Ok(Err(fault)),
    }
}

/// Passes over the Info block that the input goes on with, of which some bytes are still to come. Where the
/// input goes on with no Info block, it ends inside a block.
fn take_text<S: Source>(
    source: &mut S,
    intake: &mut Intake,
    before: &Before,
) -> Result<Result<SpelledBlock, StreamFault>, Failed>
    requires within { IsWithin before.now }
    requires bound { length intake.old.held ≤ 4096 }
    requires truncated { piece_at before.now.offset before.now.counted before.now.ended intake.old.held
        ≡ Err Truncated }
    requires ended { ((size : ℕ) → IsText before.now.offset intake.old.held size → ⊥) → IsAtEnd (S.left source.old) }
    ensures takes { TakesBlock (reads_at S.Source source.old) (reads_at S.Source source.new) intake.old.held
        intake.new.held before.now result }
    ensures sized { IfOk result (λ reading. IfOk reading IsSized) }
    ensures bound { length intake.new.held ≤ 4096 }
    ensures used { intake.new.used ≡ intake.old.used }
    ensures counts { Counts (is_err result) (source_counts S.Source source.old) (source_counts S.Source source.new) }
{
    let size = match text_size(before, intake.bytes()) {
        Some(size) => size,
        None => return Ok(Err(StreamFault::Truncated)),
    };
    let bytes = 4 + size as usize;
    match skip(source, intake, bytes) {
        Ok(More::Taken) => {
            let block = Block::Info { length: size };
            Ok(Ok(SpelledBlock { block, bytes }))
        }
        Ok(More::End) => Ok(Err(StreamFault::Truncated)),
        Err(failed) => Err(failed),
    }
}

/// Passes over so many bytes of the input, which may be more than an intake holds.
fn skip<S: Source>(source: &mut S, intake: &mut Intake, count: usize) -> Result<More, Failed>
    requires count { count < 2 ^ 32 }
    ensures skipped { IsSkipped (reads_at S.Source source.old) (reads_at S.Source source.new) intake.old.held
        intake.new.held count result }
    ensures bound { length intake.new.held ≤ 4096 }
    ensures used { intake.new.used ≡ intake.old.used }
    ensures counts { Counts (is_err result) (source_counts S.Source source.old) (source_counts S.Source source.new) }
{
    let mut rest = count;
    loop {
        let here = rest.min(intake.bytes().len());
        intake.pass(here);
        rest -= here;
        if rest == 0 {
            return Ok(More::Taken);
        }
        match intake.more(source) {
            Ok(More::Taken) => {}
            Ok(More::End) => return Ok(More::End),
            Err(failed) => return Err(failed),
        }
    }
}

/// The block that the input goes on with, which is not passed over, or its fault. Takes bytes from the
/// source only where those that are held do not tell, and stops at an Info block, which may be longer than
/// what an intake holds.
fn next_block<S: Source>(
    source: &mut S,
    intake: &mut Intake,
    before: &Before,
) -> Result<Result<SpelledBlock, StreamFault>, Failed>
    requires within { IsWithin before.now }
    ensures took { Took (IsBlockOpen before.now intake.old.held) (reads_at S.Source source.old)
        (reads_at S.Source source.new) intake.old.held intake.new.held }
    ensures bound { length intake.new.held ≤ 4096 }
    ensures reading { IfOk result
        (λ reading. reading ≡ piece_at before.now.offset before.now.counted before.now.ended intake.new.held) }
    ensures sized { IfOk result (λ reading. IfOk reading IsSized) }
    ensures ended { IfOk result
        (λ reading.
        reading ≡ Err Truncated → ((size : ℕ) → IsText before.now.offset intake.new.held size → ⊥)
        → IsAtEnd (S.left source.new)) }
    ensures failed { OnErr result
        (piece_at before.now.offset before.now.counted before.now.ended intake.new.held ≡ Err Truncated) }
    ensures used { intake.new.used ≡ intake.old.used }
    ensures counts { Counts (is_err result) (source_counts S.Source source.old) (source_counts S.Source source.new) }
{
    loop {
        match front(before, intake.bytes()) {
            Err(StreamFault::Truncated) => {}
            reading => return Ok(reading),
        }
        match text_size(before, intake.bytes()) {
            Some(_) => return Ok(Err(StreamFault::Truncated)),
            None => {}
        }
        match intake.more(source) {
            Ok(More::Taken) => {}
            Ok(More::End) => return Ok(Err(StreamFault::Truncated)),
            Err(failed) => return Err(failed),
        }
    }
}

/// Keeps what the turns of a stream and its transitions need of a block.
#[inline(always)]
fn note(
    number: u32,
    piece: &SpelledBlock,
    before: &Before,
    flux: &mut TrackFlux,
    bench: &mut StreamBench,
) -> Result<(), Memory>
    requires within { IsWithin before.now }
    requires follows { MayFollow before.now piece.now }
    requires sized { IsSized piece.now }
    requires times { All (λ time. time ≤ before.now.time) flux.old.times }
    requires counted { bench.old.counted ≡ before.now.counted }
    ensures times { OnOk result (flux.new.times ≡ flux.old.times ++ new_times before.now.time piece.now.block) }
    ensures indexes { flux.new.indexes ≡ flux.old.indexes }
    ensures room { KeepsRoom flux.old flux.new }
    ensures noted { OnOk result ((ps : List SpelledBlock) → IsNoted ps bench.old → length ps ≡ number
        → IsNoted (ps ++ piece.now ∷ []) bench.new) }
    ensures bench { KeepsBenchRoom bench.old bench.new }
    ensures succeeds { 0 < flux.old.spare_times → HasFullBench bench.old → (ps : List SpelledBlock)
        → IsNoted ps bench.old → total_bytes ps + piece.now.bytes ≤ LIMIT → IsOk result }
{
    note_time(piece, before, flux)?;
    bench.note(number, *piece)
}

/// Keeps the transition of a block.
fn note_time(piece: &SpelledBlock, before: &Before, flux: &mut TrackFlux) -> Result<(), Memory>
    requires within { IsWithin before.now }
    requires times { All (λ time. time ≤ before.now.time) flux.old.times }
    ensures times { OnOk result (flux.new.times ≡ flux.old.times ++ new_times before.now.time piece.now.block) }
    ensures indexes { flux.new.indexes ≡ flux.old.indexes }
    ensures room { KeepsRoom flux.old flux.new }
    ensures succeeds { 0 < flux.old.spare_times → IsOk result }
{
    match piece.block {
        Block::Flux { ticks } => flux.push_time(before.time + u64::from(ticks)),
        _ => Ok(()),
    }
}
