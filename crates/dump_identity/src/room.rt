//! The memory for reading a dump as every disk.

ghost use Rattle.std.specs.Prelude.{◌≡◌, ◌≤◌, ◌+◌, [], ◌∷◌, ◌++◌, false, true, All, length, map, IfOk, OnOk};
ghost use Rattle.std.specs.Vec.{vec_capacity};
ghost use Rattle.sector_images.specs.declared.format.Format.TheVariants.{Numbered};
ghost use Rattle.track_shelf.specs.Stepping.{reaches_all};
ghost use Rattle.dump_identity.specs.Candidates.{by_numbers, candidates, candidates_of};
ghost use Rattle.dump_numbers.specs.Sets.{AreNotedTo};
ghost use Rattle.dump_identity.specs.Trials.{trial_of};

use dump_numbers::{NumberedDisk, NumbersRoom};
use dump_tallies::{DiskTally, MOST_FILES, TallyRoom};
use flux_base::Memory;
use flux_engine::SharedStream;
use sector_images::{Format, all_formats};
use sector_report::Passed;
use std::alloc::Global;
use std::marker::Model;
use track_shelf::Stepping;

/// The most disks by numbers of which a dump may be: of five rates, each of four sizes by two steps.
const MOST_BY_NUMBERS: usize = 40;

/// All memory that reading a dump as every disk takes, less than 128 MiB. It serves once.
#[derive(Drop)]
pub struct IdentityRoom {
    pub(crate) stream: SharedStream,
    pub(crate) numbers: NumbersRoom,
    /// Why each file that came is passed over, if it is, and each that came once more.
    pub(crate) passed: Vec<Option<Passed>>,
    pub(crate) again: Vec<Option<Passed>>,
    /// All candidates that have names, in order.
    pub(crate) disks: Vec<DiskTally>,
    /// Memory for those by numbers.
    pub(crate) spare: Vec<TallyRoom>,
    /// Whether the dump has a file of one of the tracks of each.
    pub(crate) held: Vec<bool>,
}

impl Model for IdentityRoom {
    ghost use Rattle.std.specs.Prelude.{◌≡◌, ◌≤◌, ◌+◌, [], length, map};
    ghost use Rattle.std.specs.Vec.{vec_capacity};
    ghost use Rattle.dump_numbers.specs.Sets.{AreNotedTo};
    ghost use Rattle.dump_identity.specs.Candidates.{candidates};
    ghost use Rattle.dump_identity.specs.Trials.{trial_of};

    ghost Value = { Unit {0} };

    ghost view = { λ room. record {} };

    ghost invariant = { λ room. (room.disks.items ≡ map trial_of candidates)
        × (length room.disks.items + 40 ≤ vec_capacity room.disks)
        × (length room.spare.items ≡ 40)
        × (room.held.items ≡ []) × (length room.disks.items + 40 ≤ vec_capacity room.held)
        × (room.passed.items ≡ []) × (200 ≤ vec_capacity room.passed)
        × (room.again.items ≡ []) × (200 ≤ vec_capacity room.again)
        × AreNotedTo [] room.numbers };
}

impl IdentityRoom {
    /// Takes it. What is in it then is the invariant: all candidates that have names, for none of which a file came, and
    /// room for those by numbers.
    pub fn reserve(alloc: Global) -> Result<IdentityRoom, Memory> {
        let (stream, numbers) = streams(alloc)?;
        let (passed, again) = file_lists(alloc)?;
        let (disks, spare, held) = disk_lists(alloc)?;
        Ok(IdentityRoom {
            stream,
            numbers,
            passed,
            again,
            disks,
            spare,
            held,
        })
    }
}

/// What reads a stream, and notes the numbers that it tells.
fn streams(alloc: Global) -> Result<(SharedStream, NumbersRoom), Memory>
    ensures { IfOk result (λ both. AreNotedTo [] both.1) }
{
    let stream = SharedStream::reserve(alloc)?;
    Ok((stream, NumbersRoom::reserve(alloc)?))
}

/// Empty lists of all files, for two readings.
fn file_lists(alloc: Global) -> Result<(Vec<Option<Passed>>, Vec<Option<Passed>>), Memory>
    ensures passed { IfOk result (λ both. (both.0.items ≡ []) × (200 ≤ vec_capacity both.0)) }
    ensures again { IfOk result (λ both. (both.1.items ≡ []) × (200 ≤ vec_capacity both.1)) }
{
    let passed = Vec::with_capacity(alloc, usize::from(MOST_FILES))?;
    let again = Vec::with_capacity(alloc, usize::from(MOST_FILES))?;
    Ok((passed, again))
}

/// All candidates that have names, memory for those by numbers, and an empty list of all.
fn disk_lists(alloc: Global) -> Result<(Vec<DiskTally>, Vec<TallyRoom>, Vec<bool>), Memory>
    ensures named { IfOk result (λ all. all.0.items ≡ map trial_of candidates) }
    ensures room { IfOk result (λ all. length all.0.items + 40 ≤ vec_capacity all.0) }
    ensures spare { IfOk result (λ all. length all.1.items ≡ 40) }
    ensures held { IfOk result
        (λ all. (all.2.items ≡ []) × (length all.0.items + 40 ≤ vec_capacity all.2)) }
{
    let disks = named_disks(alloc)?;
    let spare = spare_rooms(alloc)?;
    let held = Vec::with_capacity(alloc, disks.capacity())?;
    Ok((disks, spare, held))
}

/// All candidates that have names, and room for those by numbers.
fn named_disks(alloc: Global) -> Result<Vec<DiskTally>, Memory>
    ensures named { IfOk result (λ disks. disks.items ≡ map trial_of candidates) }
    ensures room { IfOk result (λ disks. length disks.items + 40 ≤ vec_capacity disks) }
{
    let mut disks = Vec::new(alloc);
    for format in all_formats() {
        push_disks(alloc, *format, &mut disks)?;
    }
    disks.reserve(MOST_BY_NUMBERS)?;
    Ok(disks)
}

/// Memory for the candidates by numbers.
fn spare_rooms(alloc: Global) -> Result<Vec<TallyRoom>, Memory>
    ensures { IfOk result (λ spare. length spare.items ≡ 40) }
{
    let mut spare = Vec::with_capacity(alloc, MOST_BY_NUMBERS)?;
    for _number in 0..MOST_BY_NUMBERS {
        spare.push_reserved(TallyRoom::reserve(alloc)?);
    }
    Ok(spare)
}

/// Appends the candidates of a format: with one step for each cylinder, and with two where
/// such a drive reaches all tracks.
#[tactic(auto, unfolding(crate::specs::Candidates::candidates_of))]
fn push_disks(alloc: Global, format: Format, disks: &mut Vec<DiskTally>) -> Result<(), Memory>
    ensures { OnOk result (disks.new.items ≡ disks.old.items ++ map trial_of (candidates_of format)) }
{
    push_disk(alloc, Stepping::Single, format, disks)?;
    if !Stepping::Double.reaches_all(format) {
        return Ok(());
    }
    push_disk(alloc, Stepping::Double, format, disks)
}

/// Appends a candidate.
fn push_disk(
    alloc: Global,
    stepping: Stepping,
    format: Format,
    disks: &mut Vec<DiskTally>,
) -> Result<(), Memory>
    requires { reaches_all stepping format ≡ true }
    ensures { OnOk result
        (disks.new.items ≡ disks.old.items ++ trial_of (record { stepping = stepping; format = format }) ∷ []) }
{
    disks.reserve(1)?;
    let disk = DiskTally::reserve(alloc, stepping, format)?;
    disks.push_reserved(disk);
    Ok(())
}

/// Appends the candidates by numbers.
pub(crate) fn push_numbered(
    told: &[NumberedDisk],
    spare: &mut Vec<TallyRoom>,
    disks: &mut Vec<DiskTally>,
)
    requires few { length told.now ≤ length spare.old.items }
    requires room { length disks.old.items + length told.now ≤ vec_capacity disks.old }
    requires reached { All (λ disk. reaches_all disk.stepping (Numbered disk.disk) ≡ true) told.now }
    ensures { disks.new.items ≡ disks.old.items ++ map trial_of (map by_numbers told.now) }
{
    for number in 0..told.len() {
        let disk = told[number];
        let room = spare.take_last();
        disks.push_reserved(DiskTally::begin(room, disk.stepping, Format::Numbered(disk.disk)));
    }
}
