//! The engine: the captured streams of a disk's tracks become a sector image and a report, and an image becomes
//! streams.
//!
//! For each track: the stream's transitions (`kryo_stream`), their cells (`phase_loop`), the readings of
//! sectors in these cells (`frame_law` and the recordings), one verdict for each sector over the readings of
//! all revolutions (`turn_merge`), and from the verdicts the track's part of the image and its lines
//! (`sector_report`).
//!
//! And back: for each track the image's bytes of its sectors (`sector_images`), the ring that has them (the
//! recordings), and the ring's stream (`flux_writer`).
#![tactic(auto)]

mod capture;
mod cell_reader;
mod disk_streams;
mod fault;
mod gathered_track;
mod gathering;
mod laws;
mod names;
mod plan;
mod planned;
mod ring_making;
mod room;
mod second_sinks;
mod shared_cells;
mod shared_stream;
mod told_names;
mod track_captures;
mod track_part;
mod track_streams;
mod track_tally;
mod track_writer;
mod write_fault;
mod write_laws;
mod write_room;
mod writing;

pub use capture::{
    bytes, end_track, read_by_clocks, read_stream, recover_cells, room_format, room_gathered,
    start_track, verdict,
};
pub use cell_reader::CellReader;
pub use disk_recordings::{Sectors, sectors_of};
pub use disk_streams::{fill, write_disk};
pub use fault::{RefusedCapture, Stopped};
pub use gathered_track::{Gathered, PassedStream, PassedStreams};
pub use gathering::{note_reading, place_of};
pub use kryo_stream::CaptureFault;
pub use laws::{plans_are_right, rules_are_read};
pub use names::{NamedStreams, count_names, next_name, take_names};
pub use plan::{Clocks, Plan, Rule, decoding_plan, rescue_plan, set_plan};
pub use planned::{decode_planned, decode_planned_tracks, decode_tracks};
pub use ring_making::track_ring;
pub use room::{DiskRoom, MOST_CELLS, format_book, format_gathered, lost_count};
pub use second_sinks::{NoSecond, SecondSinks};
pub use shared_stream::SharedStream;
pub use track_part::{PartFault, write_part};
pub use track_streams::{NextStream, OneAfterAnother, TrackStreams};
pub use track_tally::TrackTally;
pub use track_writer::{ImageAndReport, TrackWriter};
pub use write_fault::WriteFault;
pub use write_laws::{
    captures_are_recovered, images_have_rings, steady_captures_are_recovered, streams_are_captures,
};
pub use write_room::WriteRoom;
pub use writing::{add_totals, count_verdict, no_totals, write_image, write_lines};
