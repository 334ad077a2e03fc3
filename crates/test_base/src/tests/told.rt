//! Disks by their numbers that the headers of tracks tell.
use flux_base::Memory;
use ibm_disks::{IbmDisk, Rate, SectorSize};
use std::alloc::Global;
use std::test::Fail;
use told_disks::{
    ForeignDisk, NameSet, NamedHeads, NumberedDisk, TrackSets, push_disks, push_foreign,
};
use track_shelf::Stepping;

/// What headers name: the tracks by cylinders below one and heads from one to below another, the least and the greatest
/// number of their sectors, and on how many tracks from the first on the next number stands.
type Named = (u8, (u8, u8), (u8, u8), u8);

const NOTHING: Named = (0, (0, 0), (1, 1), 0);

/// The set of a track.
fn set_of(track: u8, size: SectorSize, named: Named) -> NameSet {
    let (cylinders, (from, to), (first, last), more) = named;
    let mut set = NameSet::empty();
    if track / 2 >= cylinders || track % 2 < from || track % 2 >= to {
        return set;
    }
    for number in first..=last {
        set.insert(size, number);
    }
    if track < more {
        set.insert(size, last.wrapping_add(1));
    }
    set
}

/// Those of all tracks of a drive.
fn sets_of(size: SectorSize, named: Named) -> [NameSet; 198] {
    let mut sets = [NameSet::empty(); 198];
    for track in 0..198u8 {
        sets[usize::from(track)] = set_of(track, size, named);
    }
    sets
}

/// A size, what headers name by one step of the drive and by two, and the disk that they tell.
type Row = (SectorSize, Named, Named, Option<(Stepping, &'static str)>);

/// Disks that are written with 250000 bits of MFM a second. A number counts on a quarter of the tracks, and not on a
/// track less. Disks of the PC's 720 KB are covered to their last cylinder.
const ROWS: [Row; 8] = [
    (
        SectorSize::Bytes1024,
        (80, (0, 2), (0, 4), 0),
        NOTHING,
        Some((Stepping::Single, "mfm-dd-80x2x5x1024@0")),
    ),
    (
        SectorSize::Bytes256,
        (80, (0, 2), (0, 14), 40),
        NOTHING,
        Some((Stepping::Single, "mfm-dd-80x2x16x256@0")),
    ),
    (
        SectorSize::Bytes256,
        (80, (0, 2), (0, 14), 39),
        NOTHING,
        Some((Stepping::Single, "mfm-dd-80x2x15x256@0")),
    ),
    (SectorSize::Bytes512, (77, (0, 2), (1, 9), 0), NOTHING, None),
    (
        SectorSize::Bytes512,
        (82, (0, 2), (1, 9), 0),
        NOTHING,
        Some((Stepping::Single, "mfm-dd-82x2x9x512")),
    ),
    (
        SectorSize::Bytes256,
        NOTHING,
        (40, (0, 1), (1, 10), 0),
        Some((Stepping::Double, "mfm-dd-40x1x10x256")),
    ),
    (
        SectorSize::Bytes512,
        (80, (0, 2), (1, 13), 0),
        NOTHING,
        None,
    ),
    (SectorSize::Bytes128, NOTHING, NOTHING, None),
];

/// The disks that are told of what headers name by one step and by two.
fn told_disks(alloc: Global, row: Row) -> Result<Vec<NumberedDisk>, Memory> {
    let (size, one, two, _) = row;
    let mut disks = Vec::with_capacity(alloc, 8)?;
    push_disks(
        Rate::Double,
        &sets_of(size, one),
        &sets_of(size, two),
        &mut disks,
    );
    Ok(disks)
}

/// Whether they are this one alone, or none.
fn are(disks: &[NumberedDisk], wanted: Option<(Stepping, &str)>) -> bool {
    let Some((stepping, word)) = wanted else {
        return disks.is_empty();
    };
    match IbmDisk::of_word(word.as_bytes()) {
        Some(disk) => disks == [NumberedDisk { stepping, disk }].as_slice(),
        None => false,
    }
}

#[test]
fn headers_tell_disks(rt: HostRuntime) -> Result<(), Fail> {
    for row in ROWS {
        let disks = told_disks(rt.alloc(), row)?;
        assert!(rt; are(disks.as_slice(), row.3), "{disks:?}");
    }
    Ok(())
}

/// What names the first head, what names the other one, and the disk that both tell.
type ForeignRow = (Named, Named, Option<(NamedHeads, &'static str)>);

/// The Commodore 1581's disk has a name, and a disk of one head has its own.
const FOREIGN: [ForeignRow; 4] = [
    (
        (80, (0, 2), (1, 10), 0),
        (80, (1, 2), (1, 10), 0),
        Some((NamedHeads::First, "mfm-dd-80x2x10x512")),
    ),
    ((80, (1, 2), (1, 10), 0), (80, (0, 2), (1, 10), 0), None),
    (
        (82, (1, 2), (1, 10), 0),
        (82, (0, 2), (1, 10), 0),
        Some((NamedHeads::Changed, "mfm-dd-82x2x10x512")),
    ),
    ((40, (0, 1), (1, 10), 0), NOTHING, None),
];

/// The disks that are told, by one step.
fn told_foreign(alloc: Global, row: ForeignRow) -> Result<Vec<ForeignDisk>, Memory> {
    let none = sets_of(SectorSize::Bytes512, NOTHING);
    let first = sets_of(SectorSize::Bytes512, row.0);
    let changed = sets_of(SectorSize::Bytes512, row.1);
    let mut disks = Vec::with_capacity(alloc, 8)?;
    push_foreign(
        Rate::Double,
        TrackSets {
            one: &first,
            two: &none,
        },
        TrackSets {
            one: &changed,
            two: &none,
        },
        &mut disks,
    );
    Ok(disks)
}

/// Whether they are this one alone, or none.
fn are_foreign(disks: &[ForeignDisk], wanted: Option<(NamedHeads, &str)>) -> bool {
    let Some((heads, word)) = wanted else {
        return disks.is_empty();
    };
    let stepping = Stepping::Single;
    match IbmDisk::of_word(word.as_bytes()) {
        Some(disk) => {
            let disk = NumberedDisk { stepping, disk };
            disks == [ForeignDisk { heads, disk }].as_slice()
        }
        None => false,
    }
}

#[test]
fn headers_of_other_heads_tell_disks(rt: HostRuntime) -> Result<(), Fail> {
    for row in FOREIGN {
        let disks = told_foreign(rt.alloc(), row)?;
        assert!(rt; are_foreign(disks.as_slice(), row.2), "{disks:?}");
    }
    Ok(())
}
