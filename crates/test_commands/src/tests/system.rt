//! A folder of real files.
use super::input::TWO_TRANSITIONS;
use super::{Ended, words_of};
use flux_base::{Memory, MemorySink, MemorySource, Status};
use flux_cli::{StdMaker, StdShelf, run};
use std::fs;
use std::test::Fail;

/// Runs `decode-folder apple-do` over this folder of the system.
fn decode_folder(rt: &HostRuntime, folder: &str) -> Result<Ended, Memory> {
    let alloc = rt.alloc();
    let words = words_of(alloc, &["decode-folder", "apple-do", folder])?;
    let mut source = MemorySource::new(Vec::new(alloc), 1, Vec::new(alloc));
    let mut image = MemorySink::new(alloc, 200_000, Vec::new(alloc))?;
    let mut notes = MemorySink::new(alloc, 20_000, Vec::new(alloc))?;
    let mut shelf = StdShelf::new(rt);
    let mut maker = StdMaker::new(rt);
    let status = run(
        alloc,
        &words,
        &mut source,
        &mut image,
        &mut notes,
        &mut shelf,
        &mut maker,
    );
    Ok(Ended {
        status,
        source,
        image,
        notes,
    })
}

/// Writes the streams of all tracks, on none of which a sector stands.
fn make_folder(rt: &HostRuntime, folder: &str) -> Result<(), Fail> {
    fs::create_dir(rt, folder)?;
    for cylinder in 0..35 {
        let path = format!(in rt.alloc(); "{folder}/track{cylinder:02}.0.raw")?;
        fs::write(rt, path.as_str(), TWO_TRANSITIONS.as_slice())?;
    }
    Ok(())
}

/// The answer, whether the image has zeros alone, and whether the notes end with all sectors missing.
fn without_sectors(end: &Ended) -> (Status, bool, bool) {
    let total = b"34.0 15 missing 0 0\ntotal 560 good 0 bad 0 missing 560 contradictory 0\n";
    (
        end.status,
        end.image.bytes() == [0; 143_360].as_slice(),
        end.notes.bytes().ends_with(total),
    )
}

/// The answer, whether the image is empty, and whether the notes are that the last file is missing.
fn without_a_file(end: &Ended) -> (Status, bool, bool) {
    let line = b"refused track 34 missing track34.0.raw\n";
    (
        end.status,
        end.image.bytes().is_empty(),
        end.notes.bytes() == line.as_slice(),
    )
}

// What was found is compared when the folder is away.
#[test]
fn a_folder_of_the_system(rt: HostRuntime) -> Result<(), Fail> {
    let folder = "a dump of träcks";
    make_folder(&rt, folder)?;
    let whole = without_sectors(&decode_folder(&rt, folder)?);
    fs::remove_file(&rt, "a dump of träcks/track34.0.raw")?;
    let missing = without_a_file(&decode_folder(&rt, folder)?);
    fs::remove_dir_all(&rt, folder)?;
    assert_eq!(rt; whole, (Status::NotAllGood, true, true));
    assert_eq!(rt; missing, (Status::Refused, true, true));
    Ok(())
}
