/// Sixteen cells of a track: a byte or a mark.
#[derive(Clone, Copy, Debug, PartialEq, Eq)]
pub enum Symbol {
    /// A byte in MFM.
    Data(u8),
    /// The byte A1 with a missing clock.
    SyncMark,
    /// The byte C2 with a missing clock.
    IndexMark,
}
