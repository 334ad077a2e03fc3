ghost use Rattle.std.specs.Prelude.{◌≡◌, ◌+◌, ◌≤◌, ◌++◌};
ghost use Rattle.arrayvec.specs.ArrayString.{array_string_len};
ghost use Rattle.sector_report.specs.Lines.{fault_text, image_text, refused_capture_text, refused_text};

use crate::line::{Line, put, put_named, put_u32};
use kryo_stream::StreamFault;

#[tactic(auto, unfolding(crate::specs::Lines::refused_text))]
/// Why a stream was refused: the track's number from 0 in the order of reading, the block's number from
/// 0 in the stream, and the fault with its numbers.
pub fn refused_line(track: u32, block: u32, fault: &StreamFault) -> Line
    ensures { result.bytes ≡ refused_text track block fault.now }
{
    let mut line = Line::new();
    put(&mut line, "refused track ");
    put_u32(&mut line, track);
    put(&mut line, " block ");
    put_u32(&mut line, block);
    put(&mut line, " ");
    put_fault(&mut line, fault);
    put(&mut line, "\n");
    line
}

/// The same where several streams capture a track: with the capture's number from 0 among the streams of the track.
#[tactic(auto, unfolding(crate::specs::Lines::refused_capture_text))]
pub fn refused_capture_line(track: u32, capture: u32, block: u32, fault: &StreamFault) -> Line
    ensures { result.bytes ≡ refused_capture_text track capture block fault.now }
{
    let mut line = Line::new();
    put_named(&mut line, "refused track ", track);
    put_named(&mut line, " capture ", capture);
    put_named(&mut line, " block ", block);
    put(&mut line, " ");
    put_fault(&mut line, fault);
    put(&mut line, "\n");
    line
}

#[tactic(auto, unfolding(crate::specs::Lines::image_text))]
/// Why an image was refused: how many bytes of it were read, and how many it has to have.
pub fn image_line(read: u32, wanted: u32) -> Line
    ensures { result.bytes ≡ image_text read wanted }
{
    let mut line = Line::new();
    put_named(&mut line, "refused image ", read);
    put_named(&mut line, " wanted ", wanted);
    put(&mut line, "\n");
    line
}

#[tactic(auto, unfolding(crate::specs::Lines::fault_text))]
/// Appends the fault's name and its numbers.
pub fn put_fault(line: &mut Line, fault: &StreamFault)
    requires { array_string_len line.old + 40 ≤ 192 }
    ensures bytes { line.new.bytes ≡ line.old.bytes ++ fault_text fault.now }
    ensures len { array_string_len line.new ≤ array_string_len line.old + 40 }
{
    match *fault {
        StreamFault::Truncated => put(line, "Truncated"),
        StreamFault::UnknownType(kind) => put_named(line, "UnknownType ", u32::from(kind)),
        StreamFault::BadSize(size) => put_named(line, "BadSize ", u32::from(size)),
        StreamFault::WrongPosition { said, counted } => {
            put_named(line, "WrongPosition ", said);
            put_named(line, " ", counted);
        }
        StreamFault::DeviceFault(code) => put_named(line, "DeviceFault ", code),
        StreamFault::DataAfterEnd => put(line, "DataAfterEnd"),
        StreamFault::IndexPosition => put(line, "IndexPosition"),
        StreamFault::IndexOrder => put(line, "IndexOrder"),
        StreamFault::NoTurn => put(line, "NoTurn"),
        StreamFault::TooLong => put(line, "TooLong"),
    }
}
