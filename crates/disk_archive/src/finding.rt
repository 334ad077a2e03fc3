//! Which disk it is.

ghost use Rattle.std.specs.Prelude.{◌≤◌, length, IfErr, IfOk};
ghost use Rattle.dump_reading.specs.Files.{shelf_at};
ghost use Rattle.disk_archive.specs.Finding.{FailedSome, HasFound, HasNotFound, HaveBest, IsAsked, IsUnasked};
ghost use Rattle.disk_archive.specs.Finding.{LacksBest, asked_of};

use crate::asked::ArchiveAsked;
use crate::fault::ArchiveFault;
use crate::held::FoundDisk;
use dump_identity::{Identity, IdentityRoom, identify};
use dump_reading::NoFiles;
use flux_base::{CountingSink, Memory, Word};
use flux_engine::Stopped;
use std::alloc::Global;
use track_shelf::Shelf;

/// The disk that is asked for, or the best of the first dump that has one.
pub(crate) fn find_disk<H: Shelf>(
    alloc: Global,
    asked: &ArchiveAsked,
    shelf: &mut H,
) -> Result<FoundDisk, ArchiveFault>
    requires few { length asked.now.dumps.now ≤ 16 }
    ensures ok { IfOk result
        (HasFound (asked_of asked.now) (shelf_at H.Source H.Shelf.own shelf.old) (shelf_at H.Source H.Shelf.own shelf.new)) }
    ensures err { IfErr result
        (HasNotFound (asked_of asked.now) (shelf_at H.Source H.Shelf.own shelf.old) (shelf_at H.Source H.Shelf.own shelf.new)) }
{
    match asked.disk {
        Some(candidate) => Ok(FoundDisk {
            candidate,
            failed: false,
        }),
        None => find_best(alloc, asked.dumps, shelf),
    }
}

/// The best of the first dump that has one: the dumps are asked in their order, and none behind it is.
fn find_best<H: Shelf>(
    alloc: Global,
    dumps: &[Word],
    shelf: &mut H,
) -> Result<FoundDisk, ArchiveFault>
    requires few { length dumps.now ≤ 16 }
    ensures ok { IfOk result
        (HaveBest dumps.now (shelf_at H.Source H.Shelf.own shelf.old) (shelf_at H.Source H.Shelf.own shelf.new)) }
    ensures err { IfErr result
        (λ fault.
        LacksBest dumps.now (shelf_at H.Source H.Shelf.own shelf.old) (shelf_at H.Source H.Shelf.own shelf.new) fault
        × FailedSome (shelf_at H.Source H.Shelf.own shelf.old) (shelf_at H.Source H.Shelf.own shelf.new)) }
{
    let mut failed = false;
    for number in 0..dumps.len() {
        let identity = match ask(alloc, number as u8, &dumps[number], shelf) {
            Ok(identity) => identity,
            Err(fault) => return Err(fault),
        };
        failed = failed | identity.failed;
        if let Some(best) = identity.best {
            return Ok(FoundDisk {
                candidate: best.candidate,
                failed,
            });
        }
    }
    Err(ArchiveFault::NoDisk)
}

/// Which disk a dump is of.
fn ask<H: Shelf>(
    alloc: Global,
    number: u8,
    dump: &Word,
    shelf: &mut H,
) -> Result<Identity, ArchiveFault>
    ensures ok { IfOk result
        (IsAsked dump.now (shelf_at H.Source H.Shelf.own shelf.old) (shelf_at H.Source H.Shelf.own shelf.new)) }
    ensures err { IfErr result
        (IsUnasked number dump.now (shelf_at H.Source H.Shelf.own shelf.old)
        (shelf_at H.Source H.Shelf.own shelf.new)) }
{
    let room = match IdentityRoom::reserve(alloc) {
        Ok(room) => room,
        Err(Memory) => return Err(ArchiveFault::Memory),
    };
    let mut nothing = CountingSink::new();
    match identify(dump, room, shelf, &mut nothing) {
        Ok(identity) => Ok(identity),
        Err(Stopped::Refused(_)) => Err(ArchiveFault::NoFiles(NoFiles { dump: number })),
        // No line is kept.
        Err(Stopped::ReadFault | Stopped::ImageFault | Stopped::NotesFault) => unreachable!(),
    }
}
