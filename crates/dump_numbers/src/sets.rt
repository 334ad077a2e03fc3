//! The sets of sector numbers of a dump's files.

ghost use Rattle.std.specs.Prelude.{◌≡◌, false, IsTrue};
ghost use Rattle.ibm_disks.specs.declared.rate.Rate.{Rate as OfRate};
ghost use Rattle.told_disks.specs.declared.heads.NamedHeads.{NamedHeads};
ghost use Rattle.dump_numbers.specs.inside.Noted.{HasNotedOne, HasRoom, IsDouble, sets_at, sets_by};

use crate::heads::stream_names;
use flux_base::TrackId;
use flux_engine::SharedStream;
use ibm_disks::Rate;
use told_disks::NameSet;

/// The sets of the first files: with one step of the drive for each cylinder, and with two.
#[derive(Drop)]
pub(crate) struct RateSets {
    pub one: Vec<NameSet>,
    pub two: Vec<NameSet>,
}

/// The sets by the heads that headers name.
#[derive(Drop)]
pub(crate) struct HeadSets {
    pub own: RateSets,
    pub first: RateSets,
    pub changed: RateSets,
}

/// The sets by each rate.
#[derive(Drop)]
pub(crate) struct DumpSets {
    pub dd: HeadSets,
    pub hd: HeadSets,
    pub hd360: HeadSets,
    pub sd: HeadSets,
    pub sd8: HeadSets,
}

/// Appends a file's sets by each rate.
pub(crate) fn note_sets(file: TrackId, stream: &mut SharedStream, sets: &mut DumpSets)
    requires room { (rate : OfRate) (heads : NamedHeads) → HasRoom file (sets_by sets.old rate heads) }
    ensures noted { (rate : OfRate) (heads : NamedHeads)
        → HasNotedOne heads rate stream.old file (sets_by sets.old rate heads) (sets_by sets.new rate heads) }
    ensures stream { stream.new ≡ stream.old }
{
    note_rate(Rate::Double, file, stream, &mut sets.dd);
    note_rate(Rate::High, file, stream, &mut sets.hd);
    note_rate(Rate::HighAt360, file, stream, &mut sets.hd360);
    note_rate(Rate::Single, file, stream, &mut sets.sd);
    note_rate(Rate::SingleAt360, file, stream, &mut sets.sd8);
}

/// Appends those by a rate.
fn note_rate(rate: Rate, file: TrackId, stream: &mut SharedStream, sets: &mut HeadSets)
    requires room { (heads : NamedHeads) → HasRoom file (sets_at sets.old heads) }
    ensures noted { (heads : NamedHeads)
        → HasNotedOne heads rate stream.old file (sets_at sets.old heads) (sets_at sets.new heads) }
    ensures stream { stream.new ≡ stream.old }
{
    let names = stream_names(rate, file, stream);
    sets.own.one.push_reserved(names.own);
    sets.first.one.push_reserved(names.first);
    sets.changed.one.push_reserved(names.changed);
    if !is_double(file) {
        return;
    }
    let own = TrackId {
        cylinder: file.cylinder / 2,
        head: file.head,
    };
    let names = stream_names(rate, own, stream);
    sets.own.two.push_reserved(names.own);
    sets.first.two.push_reserved(names.first);
    sets.changed.two.push_reserved(names.changed);
}

/// Whether a file is looked at by two steps too.
fn is_double(file: TrackId) -> bool
    ensures yes { IsTrue result → IsDouble file }
    ensures no { result ≡ false → IsDouble file → ⊥ }
{
    file.cylinder % 2 == 0 && file.cylinder < 84
}
