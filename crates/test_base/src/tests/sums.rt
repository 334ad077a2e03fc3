//! Check values, and the cells of bytes.
use cell_bits::Cells;
use check_values::{Crc16, amiga_xor, crc16, xor_bytes};
use mfm_coding::{Symbol, push_bytes, push_run, push_symbol};
use std::test::Fail;

/// The header of cylinder 0, head 0, sector 1 in the 3740 and System 34 formats, the three marks before a System 34
/// field, and the check string of the CRC catalogues.
const MESSAGES: [(u16, &[u8], u16); 5] = [
    (0xffff, &[0xfe, 0x00, 0x00, 0x01, 0x00], 0xd2c3),
    (0xcdb4, &[0xfe, 0x00, 0x00, 0x01, 0x02], 0xca6f),
    (0xffff, &[0xa1, 0xa1, 0xa1], 0xcdb4),
    (0xffff, b"123456789", 0x29b1),
    (0xffff, &[], 0xffff),
];

#[test]
fn checks_of_known_messages(rt: HostRuntime) {
    for (start, bytes, want) in MESSAGES {
        let mut check = Crc16::new(start);
        for byte in bytes {
            check.add(*byte);
        }
        assert_eq!(rt;
            (crc16(start, bytes), check.value()),
            (want, want),
            "of {bytes:?}"
        );
    }
}

/// The Amiga header of track 0, sector 0, whose label is zero.
const AMIGA_HEADER: [u32; 10] = [
    0x552a_aaa5,
    0x552a_aaa9,
    0xaaaa_aaaa,
    0xaaaa_aaaa,
    0xaaaa_aaaa,
    0xaaaa_aaaa,
    0xaaaa_aaaa,
    0xaaaa_aaaa,
    0xaaaa_aaaa,
    0xaaaa_aaaa,
];

// The second is the Commodore header of track 18, sector 0, id 41 42.
#[test]
fn sums_of_known_fields(rt: HostRuntime) {
    assert_eq!(rt; xor_bytes(&[]), 0);
    assert_eq!(rt; xor_bytes(&[0x00, 0x12, 0x42, 0x41]), 0x11);
    assert_eq!(rt; amiga_xor(&AMIGA_HEADER), 0x0000_0004);
}

const WORDS: [u32; 7] = [0x9254, 0x9254, 0x4489, 0x5554, 0xAAAA, 0x5224, 0x5552];

#[test]
fn writes_bytes_and_marks(rt: HostRuntime) -> Result<(), Fail> {
    let mut cells = Cells::new(rt.alloc());
    push_run(&mut cells, 2, Symbol::Data(0x4E))?;
    push_symbol(&mut cells, Symbol::SyncMark)?;
    push_bytes(&mut cells, &[0xFE, 0x00])?;
    push_symbol(&mut cells, Symbol::IndexMark)?;
    push_bytes(&mut cells, &[0xFC])?;
    assert_eq!(rt; cells.len(), 112);
    for (index, word) in WORDS.iter().enumerate() {
        assert_eq!(rt; cells.word_at(16 * index, 16), *word, "word {index}");
    }
    Ok(())
}
