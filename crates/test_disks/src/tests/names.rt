//! What a report of dumps tells of headers that name none of their track's sectors.
use cell_bits::{Cells, MFM_A1_MARK};
use check_values::crc16;
use dump_reading::{Dumps, read_dumps};
use flux_base::{Memory, MemorySink, TrackId, Word};
use flux_engine::DiskRoom;
use flux_writer::write_track;
use sector_images::Format;
use std::alloc::Global;
use std::process::Abort;
use std::str;
use std::test::Fail;
use track_shelf::{MemoryShelf, ShelfFile, Stepping};

/// The cells of a turn of the PC's track.
const TURN: usize = 100_000;

/// More bytes than the track's stream, the disk's image or its report have.
const ROOM: usize = 1_000_000;

fn push_bytes(cells: &mut Cells, count: u16, byte: u8) -> Result<(), Memory> {
    for _ in 0..count {
        cells.push_mfm(byte)?;
    }
    Ok(())
}

/// Appends a sync of 12 bytes and three marks, these bytes, and the check value of both.
fn push_field(cells: &mut Cells, bytes: &[u8]) -> Result<(), Memory> {
    push_bytes(cells, 12, 0)?;
    for _ in 0..3u8 {
        cells.push_word(MFM_A1_MARK, 16)?;
    }
    for byte in bytes {
        cells.push_mfm(*byte)?;
    }
    let check = crc16(crc16(0xFFFF, &[0xA1, 0xA1, 0xA1]), bytes);
    cells.push_mfm((check / 256) as u8)?;
    cells.push_mfm((check % 256) as u8)
}

/// A turn with headers of cylinder 5 for sectors of 128 bytes, from 1 on: behind 80 bytes of a gap 30 bytes for each,
/// of which 8 are a gap. Behind the last one its data stand, if they do.
fn turn_of(alloc: Global, headers: u8, has_data: bool) -> Result<Cells, Memory> {
    let mut cells = Cells::new(alloc);
    push_bytes(&mut cells, 80, 0x4E)?;
    for sector in 0..headers {
        push_field(&mut cells, &[0xFE, 5, 0, sector.wrapping_add(1), 0])?;
        push_bytes(&mut cells, 8, 0x4E)?;
    }
    if has_data {
        push_bytes(&mut cells, 14, 0x4E)?;
        let mut data = [0xE5; 129];
        data[0] = 0xFB;
        push_field(&mut cells, &data)?;
    }
    for _ in (cells.len() / 16)..(TURN / 16) {
        cells.push_mfm(0x4E)?;
    }
    Ok(cells)
}

/// A dump of a track with this turn, alone.
fn dump_of(rt: &impl Abort, alloc: Global, turn: &Cells) -> Result<Vec<ShelfFile>, Fail> {
    assert_eq!(rt; turn.len(), TURN);
    assert!(rt; turn.cell(3));
    let mut stream = MemorySink::new(alloc, ROOM, Vec::new(alloc))?;
    assert!(rt; write_track(turn, 49208, &mut stream).is_ok());
    let track = TrackId {
        cylinder: 0,
        head: 0,
    };
    let mut files = Vec::new(alloc);
    files.push(ShelfFile::new(b"a".to_vec(alloc)?, track, stream.bytes().to_vec(alloc)?))?;
    Ok(files)
}

/// Headers of so many names on the first track, whether whole data stand behind the last one, what is told of them
/// behind the track's sectors, and the last line but one.
type Row = (u8, bool, &'static str, &'static str);

/// A header begins at its first mark: header 63, from 0, at cell 80 * 16 + 63 * 480 + 192 = 31712 of a turn. The stream
/// begins with 25000 cells of the turn before and is cut in front of its first one, the second cell: it is cell 56711
/// there. Both clocks read it in each of three turns.
const ROWS: [Row; 6] = [
    (0, false, "", "unread 159 other 0 whole 0"),
    (3, false, "00.0 traces 3\n", "unread 159 other 3 whole 0"),
    (64, false, "00.0 traces 64\n", "unread 159 other 64 whole 0"),
    (
        64,
        true,
        "00.0 other 5 0 64 0 6 6 0 0 1 56711\n00.0 traces 63\n",
        "unread 159 other 64 whole 1",
    ),
    (
        71,
        true,
        "00.0 others not told\n00.0 traces 64\n",
        "unread 159 other 65 whole 1",
    ),
    (71, false, "00.0 traces 64\n", "unread 159 other 64 whole 0"),
];

/// The last line of the track's sectors, and the first one of the next track.
const BEFORE: &str = "00.0 09 missing 0 0\n";

const BEHIND: &str = "00.1 dump 0 missing\n";

fn is_told(rt: &impl Abort, alloc: Global, row: Row) -> Result<(), Fail> {
    let (headers, has_data, lines, counts) = row;
    let files = dump_of(rt, alloc, &turn_of(alloc, headers, has_data)?)?;
    let names = [Word::new("a".to_string(alloc)?)];
    let dumps = Dumps {
        names: &names,
        stepping: Stepping::Single,
    };
    let mut shelf = MemoryShelf::new(&files, 4096, &[]);
    let mut image = MemorySink::new(alloc, ROOM, Vec::new(alloc))?;
    let mut notes = MemorySink::new(alloc, ROOM, Vec::new(alloc))?;
    let mut room = DiskRoom::reserve(alloc, Format::Ibm720)?;
    let answer = read_dumps(&dumps, &mut room, &mut shelf, &mut image, &mut notes);
    assert!(rt; answer.is_ok());
    let text = str::from_utf8(notes.bytes()).unwrap_or("");
    let track = text.split_once(BEFORE).map_or("", |(_, rest)| rest);
    assert_eq!(rt;
        track.split_once(BEHIND).map_or("none", |(told, _)| told),
        lines
    );
    assert!(rt; text.contains(counts), "{counts}");
    Ok(())
}

#[test]
fn names_behind_a_track_s_sectors(rt: HostRuntime) -> Result<(), Fail> {
    for row in ROWS {
        is_told(&rt, rt.alloc(), row)?;
    }
    Ok(())
}
