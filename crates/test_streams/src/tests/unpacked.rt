//! An SCP file as files that are made in memory.
use file_maker::MemoryMaker;
use flux_base::MemorySink;
use scp_files::ScpFault;
use scp_unpack::{UnpackFault, UnpackRoom, Unpacked, unpack};
use std::alloc::Global;
use std::test::Fail;
use track_shelf::{MemoryShelf, ShelfFile};

/// A table of two entries: track 0 lies right behind them, and track 1 is not there.
const FRONT: &[u8] = b"SCP\0\x80\x02\0\0\0\x10\0\x01\0\0\0\0\x18\0\0\0\0\0\0\0";

/// The header of track 0: a revolution of three entries, and one of two.
const HEAD: &[u8] = b"TRK\0\x88\x13\0\0\x03\0\0\0\x1C\0\0\0\x88\x13\0\0\x02\0\0\0\x22\0\0\0";

/// The entries.
const ENTRIES: &[u8] = b"\x03\xE8\0\0\x07\xD0\0\x01\x13\x88";

/// How many bytes of the file are there, the answer, what is told, and how many files are made.
type Row = (usize, Result<Unpacked, UnpackFault>, &'static [u8], usize);

const ROWS: &[Row] = &[
    (
        62,
        Ok(Unpacked {
            files: 1,
            refused: 0,
        }),
        b"total files 1 refused 0\n",
        1,
    ),
    (
        61,
        Ok(Unpacked {
            files: 1,
            refused: 1,
        }),
        b"00.0 refused scp ShortData 1\ntotal files 1 refused 1\n",
        1,
    ),
    (
        57,
        Ok(Unpacked {
            files: 0,
            refused: 1,
        }),
        b"00.0 refused scp ShortData 0\ntotal files 0 refused 1\n",
        0,
    ),
    (
        15,
        Err(UnpackFault::Refused(ScpFault::ShortHeader(15))),
        b"",
        0,
    ),
];

/// A shelf's files: the first bytes of the file.
fn files(alloc: Global, size: usize) -> Result<Vec<ShelfFile>, Fail> {
    let mut bytes = Vec::new(alloc);
    for part in [FRONT, HEAD, ENTRIES] {
        bytes.extend_from_slice(part)?;
    }
    bytes.truncate(size);
    let mut files = Vec::new(alloc);
    files.push(ShelfFile::at(b"disk.scp".to_vec(alloc)?, bytes))?;
    Ok(files)
}

#[test]
fn tracks_of_an_scp_file_are_files_once(rt: HostRuntime) -> Result<(), Fail> {
    let alloc = rt.alloc();
    let mut room = UnpackRoom::reserve(alloc)?;
    for (size, answer, told, made) in ROWS {
        let files = files(alloc, *size)?;
        let mut shelf = MemoryShelf::new(&files, 7, &[]);
        let mut maker = MemoryMaker::new(alloc, 2, 100, &[])?;
        let mut notes = MemorySink::new(alloc, 200, Vec::new(alloc))?;
        let came = unpack(
            &mut room,
            b"disk.scp",
            b"out",
            &mut shelf,
            &mut maker,
            &mut notes,
        );
        assert_eq!(rt; (came, notes.bytes()), (*answer, *told));
        assert_eq!(rt; maker.files().len(), *made);
        for file in maker.files() {
            assert_eq!(rt; file.path(), "out/track00.0.raw");
        }
        if *made > 0 {
            let again = unpack(
                &mut room,
                b"disk.scp",
                b"out",
                &mut shelf,
                &mut maker,
                &mut notes,
            );
            assert_eq!(rt; again, Err(UnpackFault::Exists { number: 0 }));
        }
    }
    Ok(())
}
