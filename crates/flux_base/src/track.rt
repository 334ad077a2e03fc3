/// A track of a disk. Commodore's track t is cylinder t - 1.
#[derive(Clone, Copy, Debug, PartialEq, Eq)]
pub struct TrackId {
    /// From 0, the outermost.
    pub cylinder: u8,
    /// The side, from 0.
    pub head: u8,
}
