//! Folders and files that are made on the disk.

ghost use Rattle.std.specs.Prelude.{◌≡◌};

use crate::standard::StdSink;
use file_maker::{FileMaker, file_path, folder_path};
use flux_base::Failed;
use std::fs;
use std::fs::OpenOptions;
use std::io::ErrorKind;
use std::rt::Files;

/// The system as a maker of files. No memory is taken. Each error of std is counted as a fault, save where it is only
/// looked whether a file or folder is there; so is a folder's name that is no text, and a path of more than 4096 bytes.
/// A file is made only where nothing lies at its path, not even a link that leads nowhere. The system says no error as a
/// file is closed. It tells nothing of what it makes.
#[derive(Drop)]
pub struct StdMaker<'a, R: Files> {
    files: &'a R,
    faults: u64,
}

impl<'a, R: Files> StdMaker<'a, R> {
    pub fn new(files: &'a R) -> StdMaker<'a, R>
        ensures { result.faults ≡ 0 }
    {
        StdMaker { files, faults: 0 }
    }
}

/// Makes a folder where none is there.
fn make_folder<R: Files>(files: &R, folder: &[u8]) -> Result<(), Failed> {
    let Some(path) = folder_path(folder) else {
        return Err(Failed);
    };
    match fs::create_dir(files, path.as_str()) {
        Ok(()) => Ok(()),
        Err(error) if error.kind() == ErrorKind::AlreadyExists => match fs::metadata(
            files,
            path.as_str(),
        ) {
            Ok(found) if found.is_dir() => Ok(()),
            _ => Err(Failed),
        },
        Err(_) => Err(Failed),
    }
}

/// Makes a file where nothing is there.
fn make_file<R: Files>(files: &R, folder: &[u8], name: &str) -> Result<R::File, Failed> {
    let Some(path) = file_path(folder, name) else {
        return Err(Failed);
    };
    match OpenOptions::new()
        .write(true)
        .create_new(true)
        .open(files, path.as_str())
    {
        Ok(file) => Ok(file),
        Err(_) => Err(Failed),
    }
}

impl<'a, R: Files> FileMaker for StdMaker<'a, R> {
    type File = StdSink<R::File>;

    ghost faults = { λ maker. maker.faults };

    fn make_folder(&mut self, folder: &[u8]) -> Result<(), Failed> {
        match make_folder(self.files, folder) {
            Ok(()) => Ok(()),
            Err(failed) => {
                self.faults = self.faults.saturating_add(1);
                Err(failed)
            }
        }
    }

    fn has_folder(&self, folder: &[u8]) -> bool {
        let Some(path) = folder_path(folder) else {
            return false;
        };
        fs::symlink_metadata(self.files, path.as_str()).is_ok()
    }

    fn has_file(&self, folder: &[u8], name: &str) -> bool {
        let Some(path) = file_path(folder, name) else {
            return false;
        };
        fs::symlink_metadata(self.files, path.as_str()).is_ok()
    }

    fn make_file(&mut self, folder: &[u8], name: &str) -> Result<StdSink<R::File>, Failed> {
        match make_file(self.files, folder, name) {
            Ok(file) => Ok(StdSink::new(file)),
            Err(failed) => {
                self.faults = self.faults.saturating_add(1);
                Err(failed)
            }
        }
    }

    fn close_file(&mut self, file: StdSink<R::File>) {
        self.faults = self.faults.saturating_add(file.faults());
    }
}
