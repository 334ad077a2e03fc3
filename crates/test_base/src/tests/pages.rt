//! Pages of the program, as they are written.
use flux_base::{Memory, MemorySink, Word};
use flux_help::{Page, Verb, nearest_format, write_page, write_wrong_words};
use sector_images::Format;
use std::alloc::Global;
use std::process::Abort;
use std::str;
use std::test::Fail;

#[test]
fn the_version_has_a_line_for_the_commit_and_one_for_the_logic(
    rt: HostRuntime,
) -> Result<(), Fail> {
    let alloc = rt.alloc();
    let mut sink = MemorySink::new(alloc, 200, Vec::new(alloc))?;
    assert!(rt; write_page(Page::Version, &mut sink).is_ok());
    let text = str::from_utf8(sink.bytes()).unwrap_or("");
    assert_eq!(rt;
        text,
        "\
flux 0.4.0
commit unknown: built by hand, not of a package
proved in Rattle, logic dac8208d650f15bf
"
    );
    Ok(())
}

// The lines of a command and of two formats, and the whole text's first and last bytes.
#[test]
fn the_help_names_formats(rt: HostRuntime) -> Result<(), Fail> {
    let alloc = rt.alloc();
    let mut sink = MemorySink::new(alloc, 8192, Vec::new(alloc))?;
    assert!(rt; write_page(Page::Help, &mut sink).is_ok());
    let text = str::from_utf8(sink.bytes()).unwrap_or("");
    assert!(rt; text.starts_with("flux reads "));
    assert!(rt;
        text.contains("\nCommands:\n   identify DUMP                which disk a dump is of")
    );
    assert!(rt; text.contains("\n   read FORMAT DUMP...          one or more dumps of a disk"));
    assert!(rt; text.contains("\n   turns                        one stream to its transitions"));
    assert!(rt;
        text.contains("\n   ibm-3740\tIBM 3740, 8-inch, 77 cylinders, 26 sectors, 256256 bytes\n")
    );
    assert!(rt;
        text.contains("\n   cpc-data\tAmstrad CPC, 40 cylinders, 9 sectors from C1, 184320 bytes\n")
    );
    assert!(rt; text.contains(Format::ApplePo.word().as_str()));
    assert!(rt; text.ends_with("   9\tthe system gave no words\n"));
    Ok(())
}

// A command's page: which words follow, and an example.
#[test]
fn a_command_has_an_example(rt: HostRuntime) -> Result<(), Fail> {
    let alloc = rt.alloc();
    let mut sink = MemorySink::new(alloc, 4096, Vec::new(alloc))?;
    let verb = Verb::of_word(b"map").unwrap_or(Verb::Help);
    assert!(rt; write_page(Page::About(verb), &mut sink).is_ok());
    let text = str::from_utf8(sink.bytes()).unwrap_or("");
    assert!(rt; text.starts_with("usage: flux map FORMAT\n\nReads what decode reads"));
    assert!(rt;
        text.ends_with("\n\nExample:\n   cat dump/track*.raw | flux map amiga > disk.svg\n")
    );
    Ok(())
}

/// Words that no format has, and the format that is named in their place: a letter left out, put in or changed, parts
/// of a word, and of two that are as near the first of the table.
const NEAREST: &[(&str, &str)] = &[
    ("ibm720", "ibm-720"),
    ("ibm-14400", "ibm-1440"),
    ("amigo", "amiga"),
    ("mac", "mac-400"),
    ("dos33", "apple-dos33"),
    ("atarist", "atari-st-800"),
    ("d64", "c1541"),
    ("acorn", "acorn-dfs-40"),
    ("1440", "ibm-1440"),
];

#[test]
fn the_nearest_format(rt: HostRuntime) -> Result<(), Fail> {
    for (word, named) in NEAREST {
        assert_eq!(rt; nearest_format(word.as_bytes()).word().as_str(), *named);
    }
    Ok(())
}

/// Words behind a command in a format's place, and the line that they get: one that is spelled wrong, those that people
/// have for files and disks, and numbers of which one is no disk's.
const TOLD: &[(&str, &str)] = &[
    ("ibm720", "no format ibm720; nearest: ibm-720\n"),
    ("adf", "no format adf; try: amiga\n"),
    ("ADF", "no format ADF; try: amiga\n"),
    ("St", "no format St; try: ibm-720\n"),
    ("d64", "no format d64; try: c1541\n"),
    ("d71", "no format d71; try: c1571\n"),
    ("d80", "no format d80; try: c8050\n"),
    ("D82", "no format D82; try: c8250\n"),
    ("D81", "no format D81; try: c1581\n"),
    ("do", "no format do; try: apple-dos33\n"),
    ("dsk", "no format dsk; try: apple-dos33\n"),
    ("po", "no format po; try: apple-prodos\n"),
    ("ssd", "no format ssd; try: acorn-dfs-80\n"),
    ("PC98", "no format PC98; try: mfm-hd360-77x2x8x1024\n"),
    ("720K", "no format 720K; try: ibm-720\n"),
    ("1.44", "no format 1.44; try: ibm-1440\n"),
    ("360k", "no format 360k; try: ibm-360\n"),
    ("mac", "no format mac; try: mac-800\n"),
    // A part of a word that people have is none.
    ("ad", "no format ad; nearest: amiga\n"),
    (
        "mfm-dd-77x2x8x1024",
        "no format mfm-dd-77x2x8x1024; 8 sectors of 1024 bytes do not fit on a track of 6250\n",
    ),
    (
        "fm-sd8-40x1x32x128@0",
        "no format fm-sd8-40x1x32x128@0; 32 sectors of 128 bytes do not fit on a track of 5208\n",
    ),
    (
        "mfm-dd-100x2x9x512",
        "no format mfm-dd-100x2x9x512; cylinders are 1 to 99, not 100\n",
    ),
    (
        "mfm-hd-80x3x9x512",
        "no format mfm-hd-80x3x9x512; heads are 1 or 2, not 3\n",
    ),
    (
        "mfm-dd-80x2x0x512",
        "no format mfm-dd-80x2x0x512; sectors are 1 to 32, not 0\n",
    ),
    (
        "fm-sd-80x2x33x128",
        "no format fm-sd-80x2x33x128; sectors are 1 to 32, not 33\n",
    ),
    (
        "mfm-dd-80x2x9x500",
        "no format mfm-dd-80x2x9x500; bytes of a sector are 128, 256, 512 or 1024, not 500\n",
    ),
    (
        "mfm-dd-80x2x9x512@250",
        "no format mfm-dd-80x2x9x512@250; the last sector is 255 at most, not 258\n",
    ),
    // Of several the first is named.
    (
        "mfm-dd-0x0x0x0",
        "no format mfm-dd-0x0x0x0; cylinders are 1 to 99, not 0\n",
    ),
    // Numbers of a disk, and words that write none.
    ("mfm-dd-80x2x9x512@247", "usage: flux map FORMAT\n"),
    ("mfm-dd-80x2x9", "usage: flux map FORMAT\n"),
    ("mfm-dd-80x2x9x512x", "usage: flux map FORMAT\n"),
    ("mfm-dd-080x2x9x500", "usage: flux map FORMAT\n"),
    ("mfm-dd-12345x2x9x512", "usage: flux map FORMAT\n"),
    ("fm-dd-100x2x9x512", "usage: flux map FORMAT\n"),
    ("amiga", "usage: flux map FORMAT\n"),
];

#[test]
fn wrong_words_are_told(rt: HostRuntime) -> Result<(), Fail> {
    for (word, line) in TOLD {
        is_told(&rt, &told_of(rt.alloc(), word)?, line);
    }
    Ok(())
}

/// What is told of a word in a format's place.
fn told_of(alloc: Global, word: &str) -> Result<MemorySink, Memory> {
    let mut sink = MemorySink::new(alloc, 4096, Vec::new(alloc))?;
    let words = vec![in alloc;
        Word::new("map".to_string(alloc)?),
        Word::new(word.to_string(alloc)?),
    ]?;
    match write_wrong_words(&words, &mut sink) {
        Ok(()) => Ok(sink),
        Err(_) => Err(Memory),
    }
}

fn is_told(rt: &impl Abort, sink: &MemorySink, line: &str) {
    assert_eq!(rt; sink.bytes(), line.as_bytes());
}
