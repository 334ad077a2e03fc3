//! The disks that have names.

ghost use Rattle.std.specs.Prelude.{◌≡◌, ◌≤◌, IfSome, find, length, map, option_map};
ghost use Rattle.std.specs.Str.{bytes_eq};
ghost use Rattle.ibm_disks.specs.Named.{named_as as row_named_as, named_disks, row_of};

use crate::disk::IbmDisk;
use crate::rate::Rate;
use crate::track_numbers::TrackNumbers;

impl IbmDisk {
    /// The PC's first disk: 160 KB.
    pub const IBM_160: IbmDisk = IbmDisk {
        cylinders: 40,
        heads: 1,
        rate: Rate::Double,
        track: TrackNumbers::PC_8,
    };

    /// The PC's disk of 180 KB.
    pub const IBM_180: IbmDisk = IbmDisk {
        cylinders: 40,
        heads: 1,
        rate: Rate::Double,
        track: TrackNumbers::PC_9,
    };

    /// The PC's disk of 320 KB.
    pub const IBM_320: IbmDisk = IbmDisk {
        cylinders: 40,
        heads: 2,
        rate: Rate::Double,
        track: TrackNumbers::PC_8,
    };

    /// The PC's disk of 1200 KB, of high density.
    pub const IBM_1200: IbmDisk = IbmDisk {
        cylinders: 80,
        heads: 2,
        rate: Rate::HighAt360,
        track: TrackNumbers::PC_15,
    };

    /// The Atari ST's disk of 800 KB.
    pub const ATARI_ST_800: IbmDisk = IbmDisk {
        cylinders: 80,
        heads: 2,
        rate: Rate::Double,
        track: TrackNumbers::ATARI_10,
    };

    /// The Amstrad CPC's disk for data.
    pub const CPC_DATA: IbmDisk = IbmDisk {
        cylinders: 40,
        heads: 1,
        rate: Rate::Double,
        track: TrackNumbers::CPC_DATA,
    };

    /// The Amstrad CPC's disk with a system.
    pub const CPC_SYSTEM: IbmDisk = IbmDisk {
        cylinders: 40,
        heads: 1,
        rate: Rate::Double,
        track: TrackNumbers::CPC_SYSTEM,
    };

    /// Acorn's DFS disk of 40 cylinders.
    pub const ACORN_DFS_40: IbmDisk = IbmDisk {
        cylinders: 40,
        heads: 1,
        rate: Rate::Single,
        track: TrackNumbers::ACORN,
    };

    /// Acorn's DFS disk of 80 cylinders.
    pub const ACORN_DFS_80: IbmDisk = IbmDisk {
        cylinders: 80,
        heads: 1,
        rate: Rate::Single,
        track: TrackNumbers::ACORN,
    };
}

/// A disk that has a name.
#[derive(Clone, Copy, Debug)]
pub(crate) struct Named {
    /// Its word.
    pub word: &'static str,
    /// What people call it, its cylinders, its heads where there are two, and the sectors of a track.
    pub label: &'static str,
    pub disk: IbmDisk,
}

/// All of them.
const NAMED: [Named; 9] = [
    Named {
        word: "ibm-160",
        label: "PC, 5.25-inch, 40 cylinders, 8 sectors",
        disk: IbmDisk::IBM_160,
    },
    Named {
        word: "ibm-180",
        label: "PC, 5.25-inch, 40 cylinders, 9 sectors",
        disk: IbmDisk::IBM_180,
    },
    Named {
        word: "ibm-320",
        label: "PC, 5.25-inch, 40 cylinders, 2 heads, 8 sectors",
        disk: IbmDisk::IBM_320,
    },
    Named {
        word: "ibm-1200",
        label: "PC, 5.25-inch, high density, 80 cylinders, 2 heads, 15 sectors",
        disk: IbmDisk::IBM_1200,
    },
    Named {
        word: "atari-st-800",
        label: "Atari ST, 3.5-inch, 80 cylinders, 2 heads, 10 sectors",
        disk: IbmDisk::ATARI_ST_800,
    },
    Named {
        word: "cpc-data",
        label: "Amstrad CPC, 40 cylinders, 9 sectors from C1",
        disk: IbmDisk::CPC_DATA,
    },
    Named {
        word: "cpc-system",
        label: "Amstrad CPC, 40 cylinders, 9 sectors from 41",
        disk: IbmDisk::CPC_SYSTEM,
    },
    Named {
        word: "acorn-dfs-40",
        label: "Acorn DFS, 40 cylinders, 10 sectors",
        disk: IbmDisk::ACORN_DFS_40,
    },
    Named {
        word: "acorn-dfs-80",
        label: "Acorn DFS, 80 cylinders, 10 sectors",
        disk: IbmDisk::ACORN_DFS_80,
    },
];

/// All of them, as contracts see them.
fn all_named() -> &'static [Named]
    ensures { map row_of result.now ≡ named_disks }
{
    &NAMED
}

/// The disk of this name, if one has it.
pub(crate) fn disk_named(word: &[u8]) -> Option<IbmDisk>
    ensures { result ≡ option_map (λ row. row.disk) (find (λ row. bytes_eq row.word word.now) named_disks) }
{
    for named in all_named() {
        if named.word.as_bytes() == word {
            return Some(named.disk);
        }
    }
    None
}

/// The name of these numbers, if they have one.
pub(crate) fn named_as(disk: IbmDisk) -> Option<Named>
    ensures row { option_map row_of result ≡ row_named_as disk }
    ensures short { IfSome result (λ named. (length named.word.now ≤ 32) × (length named.label.now ≤ 100)) }
{
    for named in all_named() {
        if named.disk.is(disk) {
            return Some(*named);
        }
    }
    None
}
