/// Which part of a place's source a sector's line names, before the turn and the cell.
#[derive(Clone, Copy, Debug, PartialEq, Eq)]
pub enum Naming {
    /// None: the track has one stream, which is read by one clock.
    Unnamed,
    /// The number of the capture.
    ByCapture,
    /// The number of the clock: 0 is the one that follows the drive, 1 the held one.
    ByClock,
    /// Both, the capture first.
    ByCaptureAndClock,
}
