use flux_base::TrackId;

/// What a sector of a track is to hold.
#[derive(Clone, Copy, Debug)]
pub struct SectorBytes<'a> {
    /// The track that it is on.
    pub track: TrackId,
    /// The number that its header has.
    pub sector: u8,
    /// Its bytes. Rows outside of sectors have none.
    pub bytes: &'a [u8],
}
