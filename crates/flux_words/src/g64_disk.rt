ghost use Rattle.std.specs.Prelude.{◌≡◌, ◌⊎◌, MatchOption};
ghost use Rattle.flux_words.specs.G64Disks.{format_of};
ghost use Rattle.flux_words.specs.declared.g64_disk.G64Disk.{G64Disk as Disk};

use sector_images::Format;

/// A disk that there are G64 files of: the Commodore 1541's.
#[derive(Clone, Copy, Debug, PartialEq, Eq)]
pub enum G64Disk {
    /// With 35 tracks.
    Tracks35,
    /// With 40 tracks.
    Tracks40,
}

impl G64Disk {
    /// The disk of a format, if it is one.
    pub fn of_format(format: Format) -> Option<G64Disk>
        ensures { MatchOption result ((disk : Disk) → ¬ (format ≡ format_of disk)) (λ disk. format ≡ format_of disk) }
    {
        match format {
            Format::C1541 => Some(G64Disk::Tracks35),
            Format::C1541Forty => Some(G64Disk::Tracks40),
            _ => None,
        }
    }

    /// The disk's format.
    pub fn format(self) -> Format
        ensures value { result ≡ format_of self }
        ensures commodore { (result ≡ Format.C1541) ⊎ (result ≡ Format.C1541Forty) }
    {
        match self {
            G64Disk::Tracks35 => Format::C1541,
            G64Disk::Tracks40 => Format::C1541Forty,
        }
    }
}
