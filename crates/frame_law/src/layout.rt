ghost use Rattle.std.specs.Prelude.{◌≡◌, ℕ, ◌+◌, ◌*◌, ◌^◌, ◌<◌, ◌≤◌, ◌⊎◌, ◌&&◌, List, [], ◌++◌, Bool, false, length};
ghost use Rattle.std.specs.Prelude.{Option, Some, IfSome, IfNone, IsTrue};
ghost use Rattle.cell_bits.specs.Bytes.{last_cell};
ghost use Rattle.flux_base.specs.Bounds.{LONGEST_RING, MOST_SECTOR_BYTES};
ghost use Rattle.flux_base.specs.declared.track.TrackId.{TrackId};
ghost use Rattle.frame_law.specs.declared.coding.Coding.{Coding};
ghost use Rattle.frame_law.specs.Frames.{AreSizes, EndsAt, FrameStands, IsFirstSync, IsSyncInReach, IsWithinReach};
ghost use Rattle.frame_law.specs.Frames.{NoSync};
ghost use Rattle.flux_base.specs.declared.header_name.HeaderName.{HeaderName};
ghost use Rattle.frame_law.specs.lemmas.OwnData.{AreSyncsOrNone, BeginAtOnce, HasOwnDataSyncs};
ghost use Rattle.frame_law.specs.lemmas.FrameLaws.{frame_within, ring_length, sector_stands};
ghost use Rattle.frame_law.specs.lemmas.OwnFrames.{HasOwnSyncs, TellsEarly, TellsEnds, TellsTrack};
ghost use Rattle.frame_law.specs.lemmas.FrameSizes.{header_within, some_cells};
ghost use Rattle.frame_law.specs.lemmas.OwnFrames.{sector_syncs, tells_sector};
ghost use Rattle.frame_law.specs.Others.{NamesSectors};
ghost use Rattle.frame_law.specs.Writing.{AppendsCells};
ghost use Rattle.track_rings.specs.Rings.{AreSectors, IsSectorNumber, AreBytes, bytes_of};
ghost use Rattle.track_rings.specs.Rows.{IsContent, Rows, frame_size, last_of, place_of, ring_of, ring_size};
ghost use Rattle.track_rings.specs.Rows.{rows_cells, sector_rows};
ghost use Rattle.track_rings.specs.Spaced.{MayFollow};

use crate::{CellsFrom, Coding, SectorBuffer, SectorBytes};
use cell_bits::Cells;
use flux_base::{HeaderName, Memory, TrackId};

/// The table of a recording's tracks and the few facts about it: whoever has these is a
/// [`Recording`](crate::Recording).
///
/// A track is rows, one after another: the lead-in, those of each sector, and the lead-out. An impl says which rows
/// these are and which cells each has; what a header names; where a sync for data stands, and what data hold. What
/// all recordings have in common is said in `frame_law`: that a header begins with the sync, that a sector is a
/// header and the data at the first sync after it, and that both are unbroken.
pub trait Layout {
    /// A row of a track, such as a gap, a mark, a sector's address or its bytes.
    type Row: Copy;

    /// How its cells are coded.
    const CODING: Coding;

    ghost CODING: { Coding };

    /// The track is one of the recording's.
    ghost has_track: { Self → TrackId → Type 0 };

    ghost lowest_sector: { Self → ℕ };

    ghost sector_count: { Self → TrackId → ℕ };

    ghost sector_bytes: { Self → ℕ };

    ghost track_cells: { Self → TrackId → ℕ };

    /// How many cells a header has that is written, from the begin of its sync to its end. None that is read has fewer.
    ghost header_cells: { ℕ };

    /// Where the header at the front of the cells ends.
    ghost header_end: { Self → List Bool → ℕ };

    /// The header at the front of the cells, which is whole, names this sector of this track.
    ghost names_sector: { Self → TrackId → List Bool → ℕ → Type 0 };

    /// The header at the front of the cells, which is whole, has this name and the check value of it.
    ghost names: { Self → List Bool → HeaderName → Type 0 };

    /// A header of this name is one of this sector of this track.
    ghost is_name_of: { Self → TrackId → HeaderName → ℕ → Type 0 };

    /// A sync for data, whether it opens them or not, stands at this place of the cells.
    ghost is_sync: { Self → List Bool → ℕ → Type 0 };

    /// How many bytes there are in the data of a header with this name. None where it tells a size that no data have.
    ghost size_named: { Self → HeaderName → Option ℕ };

    /// The data of the frame at the front of the cells, which have so many bytes and whose sync stands at
    /// this place, hold these bytes.
    ghost hold: { Self → ℕ → List Bool → ℕ → List ℕ → Type 0 };

    /// Where the data of the frame at the front of the cells end, which have so many bytes and
    /// whose sync stands at this place.
    ghost data_end: { Self → ℕ → List Bool → ℕ → ℕ };

    /// How many cells data have that are written, from the begin of their sync on. None that are read
    /// with as many bytes have fewer.
    ghost data_cells: { Self → ℕ };

    /// The rows of a track.
    ghost rows: { Self → TrackId → Rows Self.Row };

    /// The coding asks for the cell before what it codes.
    ghost asks: { Bool };

    /// The cells of a row for this sector with these bytes, after the cell that the coding asks for.
    ghost row_cells: { Self → TrackId → Bool → ℕ → List ℕ → Self.Row → List Bool };

    /// How many cells a row has where there are so many bytes.
    ghost row_size: { Self → TrackId → ℕ → Self.Row → ℕ };

    /// The most zeros that stand at the end of a row.
    ghost last_zeros: { ℕ };

    /// The place of the data's sync in a frame that is written.
    ghost data_place: { Self → ℕ };

    /// The number of a track's first sector.
    fn lowest_sector(&self) -> u8
        ensures { result ≡ lowest_sector self.now };

    /// How many sectors the track has.
    fn sector_count(&self, track: TrackId) -> u8
        requires { has_track self.now track }
        ensures { result ≡ sector_count self.now track };

    /// How many bytes a sector has.
    fn sector_bytes(&self) -> u16
        ensures is { result ≡ sector_bytes self.now }
        ensures most { result ≤ MOST_SECTOR_BYTES };

    /// How many bytes there are in the data of a header with this name. None where it tells a size that no data have.
    fn size_named(&self, name: HeaderName) -> Option<u16>
        ensures { result ≡ size_named self.now name };

    /// How many cells the track's ring has.
    fn track_cells(&self, track: TrackId) -> u32
        requires { has_track self.now track }
        ensures { result ≡ track_cells self.now track };

    /// The rows before the track's first sector.
    fn lead_in(&self, track: TrackId) -> &[Self::Row]
        requires { has_track self.now track }
        ensures { result.now ≡ (rows self.now track).lead_in };

    /// The rows of each sector.
    fn sector_rows(&self, track: TrackId) -> &[Self::Row]
        requires { has_track self.now track }
        ensures { result.now ≡ sector_rows (rows self.now track) };

    /// The rows after the track's last sector.
    fn lead_out(&self, track: TrackId) -> &[Self::Row]
        requires { has_track self.now track }
        ensures { result.now ≡ (rows self.now track).lead_out };

    /// Appends a row for this sector with these bytes. Rows outside of sectors get the first sector's number and
    /// no bytes, of which they have no use.
    fn append_row(&self, of: &SectorBytes, row: Self::Row, cells: &mut Cells) -> Result<(), Memory>
        requires track { has_track self.now of.now.track }
        requires sector { IsSectorNumber (lowest_sector self.now) (sector_count self.now of.now.track) of.now.sector }
        requires bytes { (length of.now.bytes.now ≡ 0) ⊎ (length of.now.bytes.now ≡ sector_bytes self.now) }
        ensures { let before = asks && last_cell cells.old.cells in
            AppendsCells cells.old cells.new (row_cells self.now of.now.track before of.now.sector of.now.bytes.now row)
            result };

    /// Where the header at the front of the cells ends. None where it is not whole.
    fn header_end(&self, frame: &CellsFrom) -> Option<usize>
        ensures some { IfSome result (λ end. (end ≡ header_end self.now frame.now) × (end ≤ length frame.now)) }
        ensures none { IfNone result (length frame.now < header_end self.now frame.now) };

    /// What the header at the front of the cells names. None where its check value is another.
    fn read_name(&self, frame: &CellsFrom) -> Option<HeaderName>
        requires whole { header_end self.now frame.now ≤ length frame.now }
        ensures named { IfSome result (λ name. names self.now frame.now name) }
        ensures none { IfNone result ((name : HeaderName) → ¬ names self.now frame.now name) };

    /// The sector of this track that has the name. None where none has it.
    fn sector_named(&self, track: TrackId, name: HeaderName) -> Option<u8>
        requires { has_track self.now track }
        ensures named { IfSome result (λ sector. is_name_of self.now track name sector) }
        ensures none { IfNone result ((sector : ℕ) → ¬ is_name_of self.now track name sector) };

    /// The first sync at a place from `from` to below `to`, which are after the header.
    fn next_sync(&self, frame: &CellsFrom, from: usize, to: usize) -> Option<usize>
        requires order { from ≤ to }
        requires near { to < 2 ^ 31 }
        ensures first { IfSome result (λ sync. IsFirstSync (is_sync self.now frame.now) from to sync) }
        ensures none { IfNone result (NoSync (is_sync self.now frame.now) from to) };

    /// Where the data end that have so many bytes and whose sync stands at the place. None where they are not whole.
    fn data_end(&self, size: u16, frame: &CellsFrom, sync: usize) -> Option<usize>
        requires { IsSyncInReach (header_end self.now frame.now) (is_sync self.now frame.now) sync }
        ensures some { IfSome result (λ end. (end ≡ data_end self.now size frame.now sync) × (end ≤ length frame.now)) }
        ensures none { IfNone result (length frame.now < data_end self.now size frame.now sync) };

    /// Whether the data that have so many bytes and whose sync stands at the place hold bytes. Then the
    /// buffer, which was empty, has them.
    fn read_data(
        &self,
        size: u16,
        frame: &CellsFrom,
        sync: usize,
        buffer: &mut SectorBuffer,
    ) -> bool
        requires sync { IsSyncInReach (header_end self.now frame.now) (is_sync self.now frame.now) sync }
        requires most { size ≤ MOST_SECTOR_BYTES }
        requires whole { data_end self.now size frame.now sync ≤ length frame.now }
        requires empty { buffer.old.items ≡ [] }
        ensures good { IsTrue result → hold self.now size frame.now sync buffer.new.items }
        ensures bad { result ≡ false → (bytes : List ℕ) → ¬ hold self.now size frame.now sync bytes };

    /// Whether the data that have so many bytes and whose sync stands at the place hold bytes, which may be more than a
    /// buffer has room for.
    fn has_content(&self, size: u16, frame: &CellsFrom, sync: usize) -> bool
        requires sync { IsSyncInReach (header_end self.now frame.now) (is_sync self.now frame.now) sync }
        requires whole { data_end self.now size frame.now sync ≤ length frame.now }
        ensures good { IsTrue result → (bytes : List ℕ) × hold self.now size frame.now sync bytes }
        ensures bad { result ≡ false → (bytes : List ℕ) → ¬ hold self.now size frame.now sync bytes };

    /// The distances of ones are 1 to 4 cells, a sync has 1 to 32, and a header has four at least.
    ghost sizes: { AreSizes CODING.shortest CODING.longest CODING.sync_cells header_cells last_zeros };

    /// A sector's number has 8 bits, and its bytes fit the buffer.
    ghost counts: { (r : Self) (track : TrackId) → has_track r track →
        (1 ≤ sector_count r track) × (lowest_sector r + sector_count r track ≤ 256)
        × (sector_bytes r ≤ MOST_SECTOR_BYTES) };

    /// The data of a frame that is written begin within reach of its header.
    ghost reach: { (r : Self) → IsWithinReach header_cells (data_place r) (data_cells r) };

    /// The rows of a frame end where its data do, and all rows together are the track's ring.
    ghost sums: { (r : Self) (track : TrackId) → has_track r track →
        (frame_size (row_size r track) (sector_bytes r) (rows r track) ≡ data_place r + data_cells r)
        × (ring_size (row_size r track) (sector_count r track) (sector_bytes r) (rows r track) ≡ track_cells r track)
        × (track_cells r track ≤ LONGEST_RING) };

    /// A row has the cells that are counted for it.
    ghost row_length: { (r : Self) (track : TrackId) (before : Bool) (s : ℕ) (bytes : List ℕ) (row : Self.Row) →
        length (row_cells r track before s bytes row) ≡ row_size r track (length bytes) row };

    /// Any row may follow any other: its ones are spaced, and few zeros stand last.
    ghost row_follows: { (r : Self) (track : TrackId) (s : ℕ) (bytes : List ℕ) (row : Self.Row) →
        has_track r track → IsContent (lowest_sector r) (sector_count r track) (sector_bytes r) s bytes →
        MayFollow CODING.shortest CODING.longest last_zeros asks (λ before. row_cells r track before s bytes row) };

    /// A track ends as it begins: where the coding asks for the cell before the ring's first one, a zero stands last.
    ghost ends: { (r : Self) (track : TrackId) (before : Bool) → has_track r track →
        let last = rows_cells asks (row_cells r track) before (lowest_sector r) [] (rows r track).lead_out in
        (asks && last_of before last) ≡ false };

    /// A header names a sector of a track where it has a name of it, which no other sector of the track has.
    ghost named_sector: { (r : Self) (track : TrackId)
        → NamesSectors (names r) (is_name_of r track) (names_sector r track) };

    /// The name of a sector tells the size that the recording's sectors have.
    ghost own_size: { (r : Self) (track : TrackId) (name : HeaderName) (s : ℕ) →
        is_name_of r track name s → size_named r name ≡ Some (sector_bytes r) };

    /// Data of any size have some cells.
    ghost data_some: { (r : Self) (size : ℕ) (cells : List Bool) (sync : ℕ) → sync + 8 ≤ data_end r size cells sync };

    /// What cells name and hold is one thing.
    ghost one_name: { (r : Self) (cells : List Bool) (n m : HeaderName) →
        names r cells n → names r cells m → n ≡ m };

    ghost one_content: { (r : Self) (cells : List Bool) (sync : ℕ) (xs ys : List ℕ) →
        hold r (sector_bytes r) cells sync xs → hold r (sector_bytes r) cells sync ys → xs ≡ ys };

    ghost content_size: { (r : Self) (cells : List Bool) (sync : ℕ) (xs : List ℕ) →
        hold r (sector_bytes r) cells sync xs → length xs ≡ sector_bytes r };

    /// The rows of a frame are read back, whatever comes after them: its header names the sector, and its data hold
    /// the sector's bytes.
    ghost frame_stands: { (r : Self) (track : TrackId) (s : ℕ) (bytes : List ℕ) (before : Bool) (rest : List Bool) →
        has_track r track → IsSectorNumber (lowest_sector r) (sector_count r track) s →
        AreBytes bytes → length bytes ≡ sector_bytes r →
        FrameStands CODING.sync CODING.sync_cells header_cells (data_place r) (names_sector r track) (is_sync r)
        (hold r (sector_bytes r))
        (rows_cells asks (row_cells r track) before s bytes (rows r track).frame ++ rest) s bytes };

    /// A frame that is written ends after the cells of its header and of its data.
    ghost frame_ends: { (r : Self) (track : TrackId) (s : ℕ) (bytes : List ℕ) (before : Bool) (rest : List Bool) →
        has_track r track → IsSectorNumber (lowest_sector r) (sector_count r track) s →
        AreBytes bytes → length bytes ≡ sector_bytes r →
        EndsAt header_cells (data_cells r) (data_place r) (header_end r) (data_end r (sector_bytes r))
        (rows_cells asks (row_cells r track) before s bytes (rows r track).frame ++ rest) };

    /// Where a header and data end is told by their own cells.
    ghost tells_ends: { (r : Self)
        → TellsEnds header_cells (data_cells r) (header_end r) (data_end r (sector_bytes r)) };

    /// What a header names, and what data hold, is told by their own cells, and by all of these but the last seven.
    ghost tells: { (r : Self) →
        TellsEarly CODING.sync_cells header_cells (data_cells r) (header_end r) (data_end r (sector_bytes r))
        (names r) (is_sync r) (hold r (sector_bytes r)) };

    /// The first cells of a header stand in a ring only where a header begins.
    ghost own_syncs: { (r : Self) (track : TrackId) → has_track r track →
        HasOwnSyncs CODING.sync CODING.sync_cells header_cells (lowest_sector r) (sector_count r track) (names r)
        (place_of (row_size r track) (lowest_sector r) (sector_bytes r) (rows r track))
        (AreSectors (sector_count r track) (sector_bytes r))
        (λ bytes.
        ring_of asks (row_cells r track) (lowest_sector r) (sector_count r track) (sector_bytes r) bytes
        (rows r track)) };

    /// A header after another is a data sync, or data begin where their header ends.
    ghost header_syncs: { (r : Self)
        → AreSyncsOrNone CODING.sync CODING.sync_cells (header_end r) (names r) (is_sync r) };

    /// Data begin where their header ends, or their first cells stand in a ring only where data do, and within headers.
    ghost own_data: { (r : Self) (track : TrackId) → has_track r track →
        BeginAtOnce (header_end r) (is_sync r)
        ⊎ HasOwnDataSyncs header_cells (data_cells r) (data_place r) (lowest_sector r) (sector_count r track)
        (header_end r)
        (is_sync r) (hold r (sector_bytes r))
        (place_of (row_size r track) (lowest_sector r) (sector_bytes r) (rows r track))
        (AreSectors (sector_count r track) (sector_bytes r))
        (λ bytes.
        ring_of asks (row_cells r track) (lowest_sector r) (sector_count r track) (sector_bytes r) bytes
        (rows r track)) };

    /// So what cells tell of names they tell of sectors.
    ghost sector_tells: { (r : Self) (track : TrackId) →
        TellsEarly CODING.sync_cells header_cells (data_cells r) (header_end r) (data_end r (sector_bytes r))
        (names_sector r track) (is_sync r) (hold r (sector_bytes r)) } = { λ r track.
            tells_sector (names r) (is_name_of r track) (names_sector r track) (named_sector r track)
            CODING.sync_cells header_cells (data_cells r) (header_end r) (data_end r (sector_bytes r)) (is_sync r)
            (hold r (sector_bytes r)) (tells r) };

    /// And all that the laws of a track's own sectors rest on is told.
    ghost track_told: { (r : Self) (track : TrackId) → has_track r track →
        TellsTrack header_cells (data_cells r) (header_end r) (data_end r (sector_bytes r)) (is_sync r)
        (hold r (sector_bytes r))
        CODING.sync CODING.sync_cells (data_place r) (lowest_sector r) (sector_count r track) (names r)
        (names_sector r track)
        (place_of (row_size r track) (lowest_sector r) (sector_bytes r) (rows r track))
        (AreSectors (sector_count r track) (sector_bytes r))
        (λ bytes.
        ring_of asks (row_cells r track) (lowest_sector r) (sector_count r track) (sector_bytes r) bytes
        (rows r track))
        (track_cells r track) (bytes_of (lowest_sector r) (sector_bytes r)) } = { λ r track known. record {
          ends = tells_ends r;
          tells = sector_tells r track;
          syncs =
              sector_syncs (names r) (is_name_of r track) (names_sector r track) (named_sector r track)
              CODING.sync CODING.sync_cells header_cells (lowest_sector r) (sector_count r track)
              (place_of (row_size r track) (lowest_sector r) (sector_bytes r) (rows r track))
              (AreSectors (sector_count r track) (sector_bytes r))
              (λ bytes.
              ring_of asks (row_cells r track) (lowest_sector r) (sector_count r track) (sector_bytes r) bytes
              (rows r track))
              (own_syncs r track known);
          leads = (own_syncs r track known).leads;
          some = some_cells sizes (reach r);
          size = λ bytes given.
              ring_length asks (row_cells r track) (row_size r track) (row_length r track)
              (lowest_sector r) (sector_count r track) (sector_bytes r) (rows r track) bytes (track_cells r track)
              given.whole (sums r track known).1;
          low = λ bytes given n number.
              (frame_within asks (row_cells r track) (row_size r track) (row_length r track)
              (lowest_sector r) (sector_count r track) (sector_bytes r) (rows r track)
              CODING.shortest CODING.longest last_zeros CODING.sync_cells header_cells sizes
              (λ m content row. row_follows r track m content row known)
              bytes n (track_cells r track) (data_place r + data_cells r) (counts r track known).0 given number
              (sums r track known).0 (sums r track known).1).0;
          room = λ bytes given.
              header_within asks (row_cells r track) (row_size r track) (row_length r track)
              (lowest_sector r) (sector_count r track) (sector_bytes r) (rows r track) bytes (track_cells r track)
              (counts r track known).0 given (reach r) (sums r track known).0 (sums r track known).1;
          stands = λ bytes given n from count place number lies.
              sector_stands asks (row_cells r track) (row_size r track) (row_length r track)
              (lowest_sector r) (sector_count r track) (sector_bytes r) (rows r track)
              CODING.shortest CODING.longest last_zeros CODING.sync_cells header_cells sizes
              (λ m content row. row_follows r track m content row known)
              (data_cells r) CODING.sync (data_place r) (header_end r) (data_end r (sector_bytes r)) (is_sync r)
              (hold r (sector_bytes r))
              (names_sector r track)
              bytes n from count place (track_cells r track) given number
              (λ content before rest fit long. (
                frame_stands r track n content before rest known number fit long,
                frame_ends r track n content before rest known number fit long,
              ))
              (sums r track known).0 (sums r track known).1 (reach r) lies;
        } };
}
