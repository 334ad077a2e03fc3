/// Why dumps are refused: the first one that has the file of none of the disk's tracks, by its number from 0.
#[derive(Clone, Copy, Debug, PartialEq, Eq)]
pub struct NoFiles {
    pub dump: u8,
}
