/// By which clock the cells of a track were recovered. Both start at the mean cell of the track's first turn, kept in
/// the band about the nominal cell.
#[derive(Clone, Copy, Debug, PartialEq, Eq)]
pub enum Clock {
    /// It follows the drive's speed: the period is the mean of the last intervals, kept in that band.
    Following,
    /// It keeps the period with which it starts.
    Held,
}
