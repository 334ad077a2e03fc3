//! Dumps whose files lie in a folder on a shelf of which a call fails.
use super::shelves::FOLDER;
use std::test::Fail;
use test_rows::{
    Dump, Files, IBM_3740, Run, SHORT, Want, decode_folder, first_bytes, first_lines, gives,
    short_dump,
};

/// A run over the folder of a dump of shortest streams, 7 bytes a read, in which a call of the shelf fails.
fn over_shelf(dump: &Dump, call: usize) -> Run<'_> {
    let files = Files {
        disk: dump.disk,
        folder: FOLDER,
        bytes: &dump.input,
        size: SHORT.len(),
    };
    Run {
        chunk: 7,
        failing_shelf: Some(call),
        ..decode_folder(files)
    }
}

// The folder is asked for once, and each of its 77 files of 50 bytes takes seven reads of 7 bytes and one of 1 byte.
#[test]
fn each_call_of_the_shelf_fails_once(rt: HostRuntime) -> Result<(), Fail> {
    let alloc = rt.alloc();
    let dump = short_dump(alloc, IBM_3740)?;
    for call in 0..617usize {
        gives(alloc, over_shelf(&dump, call), before_call(&dump, call))?;
    }
    gives(alloc, over_shelf(&dump, 617), whole(&dump))?;
    Ok(())
}

/// The tracks are written whose files were read before, each with 3328 bytes of the image and 26 lines.
fn before_call(dump: &Dump, call: usize) -> Want<'_> {
    let tracks = call.saturating_sub(1) / 8;
    Want {
        code: 8,
        image: first_bytes(&dump.image, tracks.saturating_mul(3328)),
        notes: first_lines(&dump.lines, tracks.saturating_mul(26)),
    }
}

/// What a dump comes to of which a sector is missing.
fn whole(dump: &Dump) -> Want<'_> {
    Want {
        code: 1,
        image: &dump.image,
        notes: &dump.lines,
    }
}
