//! A track that is none of the format's: all headers in it are noted by their names.
use super::decoding::{TRACK, three_turns};
use cell_bits::Cells;
use flux_base::{HeaderName, MemorySource, Source, TrackId};
use flux_engine::{
    Clocks, DiskRoom, NamedStreams, NextStream, PassedStream, count_names, read_stream,
    room_gathered, start_track, take_names,
};
use frame_law::Recording;
use ibm_fm::IbmFm;
use kryo_stream::StreamRoom;
use sector_images::Format;
use sector_report::Passed;
use std::test::Fail;

/// The first capture is the next stream of the source. There is no second one, and the others fail.
#[derive(Clone, Copy)]
struct FirstAlone;

impl<S: Source> NamedStreams<S> for FirstAlone {
    ghost gave = { λ _ _ _ _ _ _. Unit {0} };

    fn stream_of(
        &self,
        _track: TrackId,
        capture: u8,
        source: &mut S,
        stream: &mut StreamRoom,
    ) -> NextStream {
        match capture {
            0 => match read_stream(source, stream) {
                Ok(()) => NextStream::Read,
                Err(_) => NextStream::PassedOver(Passed::Failed),
            },
            1 => NextStream::PassedOver(Passed::Absent),
            _ => NextStream::PassedOver(Passed::Failed),
        }
    }
}

// Three turns by two clocks have each of the 26 headers six times. That a capture is not there is not told, and that
// one failed is.
#[test]
fn all_headers_of_a_track_beside_are_noted(rt: HostRuntime) -> Result<(), Fail> {
    let alloc = rt.alloc();
    let mut ring = Cells::new(alloc);
    IbmFm::IBM_3740.ring(TRACK, &[0xE5; 3328], &mut ring)?;
    let bytes = three_turns(alloc, &ring, 48)?;
    let mut source = MemorySource::new(bytes, 4096, Vec::new(alloc));
    let mut room = DiskRoom::reserve(alloc, Format::Ibm3740)?;
    let beside = TrackId {
        cylinder: 77,
        head: 0,
    };
    start_track(&mut room, 0);
    take_names(Clocks::Both, &FirstAlone, &mut room, beside, 0, &mut source);
    take_names(Clocks::Both, &FirstAlone, &mut room, beside, 1, &mut source);
    take_names(Clocks::Both, &FirstAlone, &mut room, beside, 2, &mut source);
    count_names(&mut room);
    let failed = PassedStream {
        capture: 2,
        why: Passed::Failed,
    };
    let gathered = room_gathered(&room);
    assert!(rt; gathered.passed.as_slice() == [failed].as_slice());
    let told = gathered.others.told();
    assert_eq!(rt; told.len(), 26);
    let name = HeaderName::Address {
        cylinder: 0,
        head: 0,
        sector: 1,
        size_code: 0,
    };
    assert_eq!(rt; told[0].name, name);
    assert!(rt;
        told.iter()
            .all(|other| other.headers == 6 && other.whole == 6)
    );
    assert_eq!(rt; (told[0].first.turn, told[0].first.cell), (1, 1264));
    assert_eq!(rt; (room.unread(), room.lost()), (1, 1));
    assert_eq!(rt; (room.told_others(), room.whole_others()), (26, 26));
    Ok(())
}
