//! The files of dumps: how they are named, and how they are opened one by one.
use flux_base::{Failed, Source, TrackId};
use std::alloc::{AllocError, Global};
use std::process::Abort;
use std::test::Fail;
use track_shelf::{DumpKind, MemoryShelf, Shelf, ShelfFile, TrackPath};

/// A dump, a cylinder and a head, and the path of that track's file in the dump.
const PATHS: [(&str, u8, u8, &str); 15] = [
    ("dump", 0, 0, "dump/track00.0.raw"),
    ("dump", 83, 1, "dump/track83.1.raw"),
    ("a/disk00.0.raw", 5, 1, "a/disk05.1.raw"),
    ("disk_79.1.raw", 3, 0, "disk_03.0.raw"),
    ("dump/track00.0.raw", 12, 0, "dump/track12.0.raw"),
    ("x12.0.raw", 34, 1, "x34.1.raw"),
    // Of three digits the first stands before the others.
    ("disk100.0.raw", 7, 0, "disk107.0.raw"),
    // Nothing stands before.
    ("00.0.raw", 1, 0, "00.0.raw/track01.0.raw"),
    // No disk has a third head.
    ("disk00.2.raw", 1, 0, "disk00.2.raw/track01.0.raw"),
    ("disk0.0.raw", 1, 0, "disk0.0.raw/track01.0.raw"),
    ("disk00.0.RAW", 1, 0, "disk00.0.RAW/track01.0.raw"),
    ("disk00.0.raw/", 1, 0, "disk00.0.raw//track01.0.raw"),
    // All tracks of an SCP file lie in it.
    ("a/disk.scp", 7, 1, "a/disk.scp"),
    ("disk.sCP", 7, 1, "disk.sCP"),
    (".scp", 7, 1, ".scp/track07.1.raw"),
];

#[test]
fn files_are_named_by_their_dump(rt: HostRuntime) {
    for (dump, cylinder, head, path) in PATHS {
        let text = TrackPath::of_dump(dump.as_bytes(), TrackId { cylinder, head }).text();
        assert!(rt; text.is_some_and(|text| text.as_str() == path), "{dump}");
    }
}

/// How long a folder's name is, and whether the paths of its files, which have 14 bytes more, are short enough.
const SIZES: [(usize, bool); 2] = [(4082, true), (4083, false)];

#[test]
fn paths_have_an_end(rt: HostRuntime) -> Result<(), Fail> {
    for (size, fits) in SIZES {
        let folder: Vec<u8> = vec![in rt.alloc(); b'a'; size]?;
        assert_eq!(rt;
            TrackPath::of_dump(&folder, first(0)).text().is_some(),
            fits
        );
    }
    assert!(rt; TrackPath::of_dump(&[0xFF], first(0)).text().is_none());
    Ok(())
}

/// The track of the first head on this cylinder.
fn first(cylinder: u8) -> TrackId {
    TrackId { cylinder, head: 0 }
}

/// A dump that is named by its files, and a folder. No file of the dump's third cylinder has bytes, and of two files
/// of one path the first counts.
fn files(alloc: Global) -> Result<Vec<ShelfFile>, AllocError> {
    let mut files = Vec::new(alloc);
    for (path, bytes) in [
        ("d/x00.0.raw", "abc"),
        ("d/x01.0.raw", "de"),
        ("d/x02.0.raw", ""),
        ("d/x00.0.raw", "other"),
    ] {
        let path = path.as_bytes().to_vec(alloc)?;
        files.push(ShelfFile::at(path, bytes.as_bytes().to_vec(alloc)?))?;
    }
    files.push(ShelfFile::new(b"f".to_vec(alloc)?, first(1), b"gh".to_vec(alloc)?))?;
    Ok(files)
}

/// A dump and a cylinder whose file is opened; whether it is there; and what each read of it gives, or that it fails.
/// The files are these, two bytes are given at a time, and two calls fail.
const OPENS: [(&str, u8, Result<bool, Failed>, &[Option<&[u8]>]); 8] = [
    (
        "d/x01.0.raw",
        0,
        Ok(true),
        &[Some(b"ab"), Some(b"c"), Some(b"")],
    ),
    // It is read from its begin, whatever was read before.
    ("d/x00.0.raw", 0, Ok(true), &[Some(b"ab")]),
    ("d/x00.0.raw", 0, Ok(true), &[Some(b"ab")]),
    ("f", 0, Ok(false), &[]),
    ("f", 1, Err(Failed), &[]),
    (
        "f/track00.0.raw",
        1,
        Ok(true),
        &[None, Some(b"gh"), Some(b"")],
    ),
    ("d/x00.0.raw", 2, Ok(true), &[Some(b"")]),
    ("d", 1, Ok(false), &[]),
];

/// The numbers of the calls that fail: one that opens a file, and the first read of the next one.
const FAILING: [u64; 2] = [9, 11];

#[test]
fn a_shelf_opens_one_file_after_another(rt: HostRuntime) -> Result<(), Fail> {
    let files = files(rt.alloc())?;
    let mut shelf = MemoryShelf::new(&files, 2, &FAILING);
    for (dump, cylinder, there, pieces) in OPENS {
        // To look is no call, and never fails.
        assert_eq!(rt;
            shelf.holds(dump.as_bytes(), first(cylinder)),
            there != Ok(false),
            "{dump}"
        );
        let opened = shelf.open_file(dump.as_bytes(), first(cylinder));
        match opened {
            Ok(Some(mut file)) => {
                assert_eq!(rt; there, Ok(true), "{dump}");
                for piece in pieces {
                    gives(&rt, &mut file, *piece);
                }
                shelf.close_file(file);
            }
            Ok(None) => assert_eq!(rt; there, Ok(false), "{dump}"),
            Err(failed) => assert_eq!(rt; there, Err(failed), "{dump}"),
        }
    }
    Ok(())
}

/// The next read gives this, or fails.
fn gives(rt: &impl Abort, file: &mut MemoryShelf, piece: Option<&[u8]>) {
    let mut buffer = [0; 3];
    let read = file.read(&mut buffer);
    match piece {
        Some(piece) => {
            assert_eq!(rt; read, Ok(piece.len()));
            assert!(rt; buffer.starts_with(piece));
        }
        None => assert_eq!(rt; read, Err(Failed)),
    }
}

/// The paths of files, and a dump's name; what lies under it, and of files of another name what they begin with.
const KINDS: [(&str, &str, &str); 16] = [
    ("dump", "tracks", ""),
    ("dump/track05.1.raw", "tracks", ""),
    // It is seen whether this very file is there.
    ("dump/track05.0.raw", "not there", ""),
    ("img", "named", "disk "),
    ("img/disk 83.1.raw", "tracks", ""),
    ("both", "tracks", ""),
    ("other", "no files", ""),
    ("other/read.me", "a file", ""),
    ("a.zip", "a file", ""),
    ("a.zip/", "not there", ""),
    // An SCP file of no bytes, and one that is not there.
    ("disk.Scp", "refused", ""),
    ("disk.scp", "not there", ""),
    ("dum", "not there", ""),
    ("dump/", "not there", ""),
    ("", "not there", ""),
    // What lies in a folder of the folder does not count, but the folder is there.
    ("deep", "no files", ""),
];

/// No name of these in `other` is that of a track's file: nothing stands before, a third head,
/// a control character, no text.
const LYING: [&[u8]; 13] = [
    b"dump/track05.1.raw",
    b"a.zip",
    b"disk.Scp",
    b"img/disk 83.1.raw",
    b"img/later00.0.raw",
    b"both/disk00.0.raw",
    b"both/track00.0.raw",
    b"other/read.me",
    b"other/00.0.raw",
    b"other/disk00.2.raw",
    b"other/a\nb00.0.raw",
    b"other/\xFF00.0.raw",
    b"deep/down/disk00.0.raw",
];

#[test]
fn what_lies_under_a_dumps_name_is_told(rt: HostRuntime) -> Result<(), Fail> {
    let alloc = rt.alloc();
    let mut files = Vec::new(alloc);
    for path in LYING {
        files.push(ShelfFile::at(path.to_vec(alloc)?, Vec::new(alloc)))?;
    }
    files.push(ShelfFile::new(b"f".to_vec(alloc)?, first(1), Vec::new(alloc)))?;
    let shelf = MemoryShelf::new(&files, 1, &[]);
    for (dump, kind, prefix) in KINDS {
        assert!(rt;
            is_kind(&shelf.kind_of(dump.as_bytes()), kind, prefix),
            "{dump}"
        );
    }
    // Its path comes in two parts.
    for (dump, kind) in [
        ("f", "tracks"),
        ("f/track01.0.raw", "tracks"),
        ("f/t", "not there"),
    ] {
        assert!(rt;
            is_kind(&shelf.kind_of(dump.as_bytes()), kind, ""),
            "{dump}"
        );
    }
    Ok(())
}

/// Whether these words say it.
fn is_kind(kind: &DumpKind, word: &str, begin: &str) -> bool {
    match kind {
        DumpKind::NotThere => word == "not there",
        DumpKind::AFile => word == "a file",
        DumpKind::NoFiles => word == "no files",
        DumpKind::OtherTracks => word == "tracks",
        DumpKind::Named(prefix) => word == "named" && prefix.as_str() == begin,
        DumpKind::RefusedScp(_) => word == "refused",
        DumpKind::Unknown => word == "unknown",
    }
}
