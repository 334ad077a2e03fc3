//! Dumps of disks, and what they come to.
use crate::disk::Disk;
use crate::streams::{SHORT, three_rings};
use cell_bits::Cells;
use flux_base::Memory;
use std::alloc::Global;

/// A dump that is being made, track by track, and what `decode` is to give for it.
#[derive(Drop)]
pub struct Dump {
    pub disk: Disk,
    /// The streams.
    pub input: Vec<u8>,
    pub image: Vec<u8>,
    pub lines: Vec<u8>,
    /// The track that comes next.
    cylinder: u8,
    head: u8,
    /// How many sectors are good, and of how many there is no reading.
    good: u32,
    missing: u32,
}

impl Dump {
    pub fn new(alloc: Global, disk: Disk) -> Dump {
        Dump {
            disk,
            input: Vec::new(alloc),
            image: Vec::new(alloc),
            lines: Vec::new(alloc),
            cylinder: 0,
            head: 0,
            good: 0,
            missing: 0,
        }
    }

    /// The next track is captured in three turns of this ring, and its sectors are good, with these bytes in the
    /// image.
    pub fn good(&mut self, alloc: Global, ring: &Cells, part: &[u8]) -> Result<(), Memory> {
        let disk = self.disk;
        let stream = three_rings(alloc, disk.ticks, ring, ring, ring)?;
        self.input.extend_from_slice(&stream)?;
        self.image.extend_from_slice(part)?;
        let mut place = disk.place;
        for index in 0..disk.sectors {
            let sector = disk.first_sector.saturating_add(index);
            let (cylinder, head) = (self.cylinder, self.head);
            let line = format!(in alloc; "{cylinder:02}.{head} {sector:02} good 3 0 1 {place}\n")?;
            self.lines.extend_from_slice(line.as_bytes())?;
            place = place.saturating_add(disk.step);
        }
        self.good = self.good.saturating_add(u32::from(disk.sectors));
        self.next();
        Ok(())
    }

    /// The streams of so many next tracks hold no sector.
    pub fn missing(&mut self, alloc: Global, tracks: usize) -> Result<(), Memory> {
        for _ in 0..tracks {
            self.missing_track(alloc)?;
        }
        Ok(())
    }

    fn missing_track(&mut self, alloc: Global) -> Result<(), Memory> {
        self.input.extend_from_slice(&SHORT)?;
        let disk = self.disk;
        for index in 0..disk.sectors {
            let sector = disk.first_sector.saturating_add(index);
            let (cylinder, head) = (self.cylinder, self.head);
            let line = format!(in alloc; "{cylinder:02}.{head} {sector:02} missing 0 0\n")?;
            self.lines.extend_from_slice(line.as_bytes())?;
            let end = self.image.len().saturating_add(usize::from(disk.size));
            self.image.resize(end, 0)?;
        }
        self.missing = self.missing.saturating_add(u32::from(disk.sectors));
        self.next();
        Ok(())
    }

    /// The next track has the other head, or is the first of the next cylinder.
    fn next(&mut self) {
        self.head = self.head.saturating_add(1);
        if self.head >= self.disk.heads {
            self.cylinder = self.cylinder.saturating_add(1);
            self.head = 0;
        }
    }

    /// Appends the total line.
    pub fn total(&mut self, alloc: Global) -> Result<(), Memory> {
        let (good, missing) = (self.good, self.missing);
        let sectors = good.saturating_add(missing);
        let line = format!(in alloc;
            "total {sectors} good {good} bad 0 missing {missing} contradictory 0\n"
        )?;
        self.lines.extend_from_slice(line.as_bytes())?;
        Ok(())
    }
}

/// A dump of the shortest streams alone.
pub fn short_dump(alloc: Global, disk: Disk) -> Result<Dump, Memory> {
    let mut dump = Dump::new(alloc, disk);
    dump.missing(alloc, disk.tracks())?;
    dump.total(alloc)?;
    Ok(dump)
}
