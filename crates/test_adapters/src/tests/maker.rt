//! Folders and files that are made, over what stands in for the system.
use super::FAULTS;
use super::files::{Record, StandIn};
use file_maker::FileMaker;
use flux_base::{Failed, Sink};
use std::alloc::Global;
use std::io::ErrorKind;
use std::test::Fail;
use std_streams::StdMaker;

/// No call fails.
const NONE: u32 = u32::MAX;

/// What is asked of the maker: the folder, whether its file of track 00.0 is there, that file made, and three bytes
/// written to it. Of the last only where the file was made.
type Answers = (Result<(), Failed>, bool, Option<Result<usize, Failed>>);

fn asked(maker: &mut StdMaker<StandIn>, folder: &[u8]) -> Answers {
    let made = maker.make_folder(folder);
    let is_there = maker.has_file(folder, "track00.0.raw");
    match maker.make_file(folder, "track00.0.raw") {
        Ok(mut file) => {
            let wrote = file.write(b"abc");
            maker.close_file(file);
            (made, is_there, Some(wrote))
        }
        Err(_) => (made, is_there, None),
    }
}

/// A folder, what is answered of it, and the calls of the system in their order.
const ROWS: [(&str, Answers, &str); 4] = [
    (
        "new",
        (Ok(()), false, Some(Ok(3))),
        "make new\nfind new/track00.0.raw\ncreate new/track00.0.raw\nput a new file\n",
    ),
    // It is there, and has no such file.
    (
        "empty",
        (Ok(()), false, Some(Ok(3))),
        "make empty\nlook empty\nfind empty/track00.0.raw\ncreate empty/track00.0.raw\nput a new file\n",
    ),
    // It is there, and has one, to which nothing is written.
    (
        "plain",
        (Ok(()), true, None),
        "make plain\nlook plain\nfind plain/track00.0.raw\ncreate plain/track00.0.raw\n",
    ),
    // A file lies in its place.
    (
        "disk.zip",
        (Err(Failed), false, Some(Ok(3))),
        "make disk.zip\nlook disk.zip\nfind disk.zip/track00.0.raw\ncreate disk.zip/track00.0.raw\nput a new file\n",
    ),
];

/// What is asked over a system of which one call fails so, and the calls.
fn over(
    alloc: Global,
    folder: &str,
    failing: u32,
    kind: ErrorKind,
) -> Result<(Answers, String), Fail> {
    let record = Record::new(alloc, failing, kind);
    let system = StandIn {
        files: &[("disk.zip", b"PK"), ("plain/track00.0.raw", b"y")],
        folders: &[("plain/", b"track00.0.raw\0"), ("empty/", b"")],
        record: &record,
    };
    let answers = asked(&mut StdMaker::new(&system), folder.as_bytes());
    Ok((answers, record.lines()))
}

#[test]
fn folders_and_files_are_made_where_nothing_is(rt: HostRuntime) -> Result<(), Fail> {
    for (folder, answers, calls) in ROWS {
        let (told, lines) = over(rt.alloc(), folder, NONE, ErrorKind::Other)?;
        assert_eq!(rt; (told, lines.as_str()), (answers, calls), "of {folder}");
    }
    Ok(())
}

#[test]
fn what_the_system_refuses_fails(rt: HostRuntime) -> Result<(), Fail> {
    for kind in FAULTS {
        // Making the folder, looking for the file, making it, writing to it.
        let fails = [
            (0, (Err(Failed), false, Some(Ok(3)))),
            (1, (Ok(()), false, Some(Ok(3)))),
            (2, (Ok(()), false, None)),
            (3, (Ok(()), false, Some(Err(Failed)))),
        ];
        for (number, answers) in fails {
            let (told, _) = over(rt.alloc(), "new", number, kind)?;
            assert_eq!(rt; told, answers, "call {number} fails: {kind:?}");
        }
    }
    Ok(())
}
