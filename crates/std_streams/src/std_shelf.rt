//! The track files of a folder on the disk.

ghost use Rattle.std.specs.Prelude.{◌≡◌, ◌<◌, ◌≤◌, length, IfOk, IfSome, OnErr, MatchResult};
ghost use Rattle.std.specs.Io.{ReadsAtMost};
ghost use Rattle.flux_base.specs.Outside.{Rose};
ghost use Rattle.sector_images.specs.Places.{tracks};

use crate::standard::StdSource;
use flux_base::{Failed, Source, TrackId};
use scp_files::ScpHeader;
use sector_images::{Format, track_count, track_id};
use std::io::{ErrorKind, Read, Seek, SeekFrom};
use std::rt::Files;
use std::{fs, io};
use track_shelf::{DumpKind, Path, Shelf, TrackPath, is_scp, names_file};

/// How many bytes of a folder's names are read at once. A name has at most 255.
const READ_SIZE: usize = 4096;

/// The wanted files of a folder: those of the format's tracks from a number on.
#[derive(Debug, Drop)]
struct Wanted {
    folder: Path,
    format: Format,
    number: u32,
}

/// The files of the system as a shelf. No memory is taken. Each error of std is counted as a fault, save where `begin`,
/// `open_file` and `open_at` do not find a file, and where it is only looked whether or what something is; so is a name
/// that is no text, and a path of more than 4096 bytes. To `open_file` and `open_at` a file whose folder is a file is
/// not there. A folder in the place of a file fails when it is read. It tells no bytes and no files.
#[derive(Drop)]
pub struct StdShelf<'a, R: Files> {
    files: &'a R,
    wanted: Option<Wanted>,
    open: Option<StdSource<R::File>>,
    faults: u64,
}

impl<'a, R: Files> StdShelf<'a, R> {
    pub fn new(files: &'a R) -> StdShelf<'a, R>
        ensures { result.faults ≡ 0 }
    {
        StdShelf {
            files,
            wanted: None,
            open: None,
            faults: 0,
        }
    }

    /// Looks for all wanted files, and goes to the first where all are found. The answer is the number of the first
    /// track whose file is not found, if one is not.
    fn look(&mut self, folder: &[u8], format: Format) -> Result<Option<u32>, Failed>
        ensures kept { self.new.faults ≡ self.old.faults }
        ensures bound { IfOk result (λ missing. IfSome missing (λ number. number < length (tracks format))) }
    {
        let folder = match path_of(folder) {
            Ok(folder) => folder,
            Err(failed) => return Err(failed),
        };
        match first_missing(self.files, folder.as_str().as_bytes(), format) {
            Ok(None) => {
                self.open = None;
                self.wanted = Some(Wanted {
                    folder,
                    format,
                    number: 0,
                });
                Ok(None)
            }
            missing => missing,
        }
    }

    /// Opens the next wanted file. Says whether there is one.
    fn open_next(&mut self) -> Result<bool, Failed>
        ensures { self.new.faults ≡ self.old.faults }
    {
        let Some(wanted) = &mut self.wanted else {
            return Ok(false);
        };
        if wanted.number >= track_count(wanted.format) {
            return Ok(false);
        }
        let track = track_id(wanted.format, wanted.number);
        let folder = wanted.folder.as_str().as_bytes();
        match open_path(self.files, &TrackPath::in_folder(folder, track)) {
            Ok(Some(file)) => {
                wanted.number += 1;
                self.open = Some(StdSource::new(file));
                Ok(true)
            }
            // It was there when `begin` looked.
            Ok(None) => Err(Failed),
            Err(failed) => Err(failed),
        }
    }

    /// Reads on in the file that is open, if one is. None where nothing more comes of it.
    fn read_open(&mut self, buffer: &mut [u8]) -> Option<Result<usize, Failed>>
        ensures kept { self.new.faults ≡ self.old.faults }
        ensures bound { IfSome result (λ answer. ReadsAtMost answer buffer.new) }
        ensures len { length buffer.new ≡ length buffer.old }
    {
        match &mut self.open {
            Some(file) => match file.read(buffer) {
                Ok(0) if !buffer.is_empty() => None,
                answer => Some(answer),
            },
            None => None,
        }
    }

    /// Reads on in the wanted files.
    fn read_on(&mut self, buffer: &mut [u8]) -> Result<usize, Failed>
        ensures kept { self.new.faults ≡ self.old.faults }
        ensures bound { ReadsAtMost result buffer.new }
    {
        for _ in 0..u32::MAX {
            if let Some(answer) = self.read_open(buffer) {
                return answer;
            }
            self.open = None;
            match self.open_next() {
                Ok(true) => {}
                Ok(false) => return Ok(0),
                Err(failed) => return Err(failed),
            }
        }
        Err(Failed)
    }
}

/// The file of a path, opened; None where it is not found.
fn open_path<R: Files>(files: &R, path: &TrackPath) -> Result<Option<R::File>, Failed> {
    let Some(text) = path.text() else {
        return Err(Failed);
    };
    match fs::open(files, text.as_str()) {
        Ok(file) => Ok(Some(file)),
        Err(error) if error.kind() == ErrorKind::NotFound => Ok(None),
        Err(_) => Err(Failed),
    }
}

/// The file of a track of a dump, opened; None where it is not there. Nor is it where its folder is a file.
fn open_track<R: Files>(files: &R, path: &TrackPath) -> Result<Option<R::File>, Failed> {
    let Some(text) = path.text() else {
        return Err(Failed);
    };
    match fs::open(files, text.as_str()) {
        Ok(file) => Ok(Some(file)),
        Err(error) if is_missing(&error) => Ok(None),
        Err(_) => Err(Failed),
    }
}

/// The same as a source that is read from `offset` on. From 0 on it may be one that has no places, as a pipe.
fn open_source<R: Files>(
    files: &R,
    path: &TrackPath,
    offset: u64,
) -> Result<Option<StdSource<R::File>>, Failed>
    ensures { IfOk result (λ opened. IfSome opened (λ source. source.faults ≡ 0)) }
{
    match open_track(files, path) {
        Ok(Some(file)) => {
            let mut file = file;
            if offset > 0 && file.seek(SeekFrom::Start(offset)).is_err() {
                return Err(Failed);
            }
            Ok(Some(StdSource::new(file)))
        }
        Ok(None) => Ok(None),
        Err(failed) => Err(failed),
    }
}

/// The begin of an SCP file; None where it is not there.
fn scp_begin<R: Files>(files: &R, path: &[u8]) -> Result<Option<ScpHeader>, Failed> {
    let mut source = match open_source(files, &TrackPath::whole(path), 0) {
        Ok(Some(source)) => source,
        Ok(None) => return Ok(None),
        Err(failed) => return Err(failed),
    };
    match ScpHeader::read(&mut source) {
        Ok(header) => Ok(Some(header)),
        Err(failed) => Err(failed),
    }
}

/// Whether an SCP file has a track. One that cannot be looked at has it.
fn has_scp_track<R: Files>(files: &R, path: &[u8], track: TrackId) -> bool {
    match scp_begin(files, path) {
        Ok(Some(header)) => header.place_of(track).is_some(),
        Ok(None) => false,
        Err(Failed) => true,
    }
}

/// What an SCP file is.
fn kind_of_scp<R: Files>(files: &R, path: &[u8]) -> DumpKind {
    match scp_begin(files, path) {
        Ok(Some(header)) => match header.fault() {
            Some(fault) => DumpKind::RefusedScp(fault),
            None => DumpKind::OtherTracks,
        },
        Ok(None) => DumpKind::NotThere,
        Err(Failed) => DumpKind::Unknown,
    }
}

/// Whether nothing lies there.
fn is_missing(error: &io::Error) -> bool {
    error.kind() == ErrorKind::NotFound || error.kind() == ErrorKind::NotADirectory
}

/// What a folder is by the names of what lies in it.
fn kind_of_folder<R: Files>(files: &R, path: Path) -> DumpKind {
    let mut path = path;
    // The slash makes the system follow a link to a folder.
    if path.try_push_str("/").is_err() {
        return DumpKind::Unknown;
    }
    match files.open_dir(path.as_str()) {
        Ok(folder) => kind_by_names(folder),
        Err(_) => DumpKind::Unknown,
    }
}

/// The same, where the names are read, each with a byte 0 behind it. No read ends inside a name.
fn kind_by_names<D: Read + Drop>(folder: D) -> DumpKind {
    let mut folder = folder;
    let mut kind = DumpKind::NoFiles;
    let mut buffer = [0; READ_SIZE];
    for _ in 0..u32::MAX {
        match folder.read(&mut buffer) {
            Ok(0) => return kind,
            Ok(count) => kind = with_names(kind, &buffer[..count]),
            Err(error) if error.kind() == ErrorKind::Interrupted => {}
            Err(_) => break,
        }
    }
    DumpKind::Unknown
}

/// The same, with these names more.
fn with_names(kind: DumpKind, names: &[u8]) -> DumpKind {
    let mut kind = kind;
    for name in names.split(|byte| *byte == 0) {
        kind = kind.with_name(name);
    }
    kind
}

/// Looks for all wanted files. The answer is the number of the first track whose file is not found, if one is not.
fn first_missing<R: Files>(files: &R, folder: &[u8], format: Format) -> Result<Option<u32>, Failed>
    ensures { IfOk result (λ missing. IfSome missing (λ number. number < length (tracks format))) }
{
    for number in 0..track_count(format) {
        let path = TrackPath::in_folder(folder, track_id(format, number));
        match open_path(files, &path) {
            Ok(Some(_)) => {}
            Ok(None) => return Ok(Some(number)),
            Err(failed) => return Err(failed),
        }
    }
    Ok(None)
}

/// The folder as a text of a path's length.
fn path_of(folder: &[u8]) -> Result<Path, Failed> {
    let Ok(text) = str::from_utf8(folder) else {
        return Err(Failed);
    };
    let mut path = Path::new();
    match path.try_push_str(text) {
        Ok(()) => Ok(path),
        Err(_) => Err(Failed),
    }
}

impl<'a, R: Files> Source for StdShelf<'a, R> {
    ghost faults = { λ shelf. shelf.faults };

    fn read(&mut self, buffer: &mut [u8]) -> Result<usize, Failed> {
        let answer = self.read_on(buffer);
        if answer.is_err() {
            self.faults = self.faults.saturating_add(1);
        }
        answer
    }
}

impl<'a, R: Files> Shelf for StdShelf<'a, R> {
    type File = StdSource<R::File>;

    fn begin(&mut self, folder: &[u8], format: Format) -> Result<Option<u32>, Failed> {
        let answer = self.look(folder, format);
        if answer.is_err() {
            self.faults = self.faults.saturating_add(1);
        }
        answer
    }

    fn holds(&self, dump: &[u8], track: TrackId) -> bool {
        if is_scp(dump) {
            return has_scp_track(self.files, dump, track);
        }
        let Some(path) = TrackPath::of_dump(dump, track).text() else {
            return true;
        };
        match fs::metadata(self.files, path.as_str()) {
            Ok(_) => true,
            Err(error) => !is_missing(&error),
        }
    }

    fn kind_of(&self, dump: &[u8]) -> DumpKind {
        if is_scp(dump) {
            return kind_of_scp(self.files, dump);
        }
        let Ok(path) = path_of(dump) else {
            return DumpKind::Unknown;
        };
        match fs::metadata(self.files, path.as_str()) {
            Ok(_) if names_file(dump) => DumpKind::OtherTracks,
            Ok(found) if found.is_dir() => kind_of_folder(self.files, path),
            Ok(_) => DumpKind::AFile,
            Err(error) if is_missing(&error) => DumpKind::NotThere,
            Err(_) => DumpKind::Unknown,
        }
    }

    fn open_file(
        &mut self,
        dump: &[u8],
        track: TrackId,
    ) -> Result<Option<StdSource<R::File>>, Failed> {
        let opened = open_source(self.files, &TrackPath::of_dump(dump, track), 0);
        if opened.is_err() {
            self.faults = self.faults.saturating_add(1);
        }
        opened
    }

    fn open_at(&mut self, path: &[u8], offset: u64) -> Result<Option<StdSource<R::File>>, Failed> {
        let opened = open_source(self.files, &TrackPath::whole(path), offset);
        if opened.is_err() {
            self.faults = self.faults.saturating_add(1);
        }
        opened
    }

    fn close_file(&mut self, file: StdSource<R::File>) {
        self.faults = self.faults.saturating_add(file.faults());
    }

    ghost tells = { λ _. tt };
}
