//! Files in memory in place of the system's.
use flux_base::copy_front;
use std::alloc::{Allocator, Global};
use std::cell::{Cell, RefCell};
use std::fs::{Metadata, OpenFile, OpenOptions};
use std::io;
use std::io::{ErrorKind, Read, Seek, SeekFrom, Write};
use std::rt::Files;

/// The calls so far, one a line, and the number of the one that fails.
#[derive(Drop)]
pub struct Record {
    lines: RefCell<String>,
    calls: Cell<u32>,
    failing: u32,
    kind: ErrorKind,
}

impl Record {
    pub fn new(alloc: Global, failing: u32, kind: ErrorKind) -> Record {
        Record {
            lines: RefCell::new(String::new(alloc)),
            calls: Cell::new(0),
            failing,
            kind,
        }
    }

    /// Writes a call down. It fails if it is its turn.
    fn call(&self, what: &str, path: &str) -> io::Result<()> {
        let number = self.calls.get();
        self.calls.set(number.saturating_add(1));
        let Ok(mut lines) = self.lines.try_borrow_mut() else {
            return Err(io::Error::from(ErrorKind::ResourceBusy));
        };
        for text in [what, " ", path, "\n"] {
            lines.push_str(text)?;
        }
        if number == self.failing {
            return Err(io::Error::from(self.kind));
        }
        Ok(())
    }

    /// The calls, one a line.
    pub fn lines(self) -> String {
        self.lines.into_inner()
    }
}

/// The system's files: each one's path and bytes. Of the folders that are listed each one's path, with a slash behind
/// it, and the names in it, with a byte 0 behind each.
#[derive(Drop)]
pub struct StandIn<'a> {
    pub files: &'a [(&'a str, &'a [u8])],
    pub folders: &'a [(&'a str, &'a [u8])],
    pub record: &'a Record,
}

/// A file that is open: its path, its bytes, and those that are still to come.
#[derive(Drop)]
pub struct Opened<'a> {
    path: &'a str,
    bytes: &'a [u8],
    left: &'a [u8],
    record: &'a Record,
}

/// A folder that is open: its path, and the names that are still to come. A read gives one name.
#[derive(Drop)]
pub struct Listed<'a> {
    path: &'a str,
    left: &'a [u8],
    record: &'a Record,
}

/// What a file is called here that was made.
const NEW_FILE: &str = "a new file";

/// What flux asks of no file.
fn unsupported<T>() -> io::Result<T> {
    Err(io::Error::from(ErrorKind::Unsupported))
}

impl<'a> StandIn<'a> {
    /// What lies at a path.
    fn found(&self, path: &str) -> io::Result<Metadata> {
        for (name, bytes) in self.files {
            if *name == path {
                return Ok(Metadata::of_file(bytes.len() as u64));
            }
        }
        for (name, _) in self.folders {
            if name.strip_suffix('/') == Some(path) {
                return Ok(Metadata::of_dir());
            }
        }
        Err(io::Error::from(ErrorKind::NotFound))
    }

    /// Nothing lies at a path.
    fn is_free(&self, path: &str) -> io::Result<()> {
        match self.found(path) {
            Ok(_) => Err(io::Error::from(ErrorKind::AlreadyExists)),
            Err(_) => Ok(()),
        }
    }
}

impl<'a> Files for StandIn<'a> {
    type File = Opened<'a>;

    type Dir = Listed<'a>;

    fn open_file(&self, how: &OpenOptions, path: &str) -> io::Result<Opened<'a>> {
        how.check()?;
        if how.asks_create_new() {
            self.record.call("create", path)?;
            self.is_free(path)?;
            return Ok(Opened {
                path: NEW_FILE,
                bytes: &[],
                left: &[],
                record: self.record,
            });
        }
        let what = if how.asks_write() { "write" } else { "open" };
        self.record.call(what, path)?;
        for (name, bytes) in self.files {
            if *name == path {
                return Ok(Opened {
                    path: name,
                    bytes,
                    left: bytes,
                    record: self.record,
                });
            }
        }
        Err(io::Error::from(ErrorKind::NotFound))
    }

    fn open_dir(&self, path: &str) -> io::Result<Listed<'a>> {
        self.record.call("list", path)?;
        for (name, names) in self.folders {
            if *name == path {
                return Ok(Listed {
                    path: name,
                    left: names,
                    record: self.record,
                });
            }
        }
        Err(io::Error::from(ErrorKind::NotFound))
    }

    fn metadata(&self, path: &str) -> io::Result<Metadata> {
        self.record.call("look", path)?;
        self.found(path)
    }

    fn symlink_metadata(&self, path: &str) -> io::Result<Metadata> {
        self.record.call("find", path)?;
        self.found(path)
    }

    fn copy(&self, _from: &str, _to: &str) -> io::Result<u64> {
        unsupported()
    }

    fn rename(&self, _from: &str, _to: &str) -> io::Result<()> {
        unsupported()
    }

    fn remove_file(&self, _path: &str) -> io::Result<()> {
        unsupported()
    }

    fn create_dir(&self, path: &str) -> io::Result<()> {
        self.record.call("make", path)?;
        self.is_free(path)
    }

    fn remove_dir(&self, _path: &str) -> io::Result<()> {
        unsupported()
    }

    fn remove_dir_all<B: Allocator>(&self, _alloc: B, _path: &str) -> io::Result<()> {
        unsupported()
    }
}

impl<'a> Read for Opened<'a> {
    fn read(&mut self, buffer: &mut [u8]) -> io::Result<usize> {
        self.record.call("read", self.path)?;
        let count = copy_front(self.left, buffer);
        self.left = &self.left[count..];
        Ok(count)
    }
}

impl<'a> Read for Listed<'a> {
    fn read(&mut self, buffer: &mut [u8]) -> io::Result<usize> {
        self.record.call("names", self.path)?;
        let name = self.left.split_inclusive(|byte| *byte == 0).next();
        let count = copy_front(name.unwrap_or(&[]), buffer);
        self.left = &self.left[count..];
        Ok(count)
    }
}

impl<'a> Write for Opened<'a> {
    fn write(&mut self, piece: &[u8]) -> io::Result<usize> {
        self.record.call("put", self.path)?;
        Ok(piece.len())
    }

    fn flush(&mut self) -> io::Result<()> {
        unsupported()
    }
}

impl<'a> Seek for Opened<'a> {
    fn seek(&mut self, to: SeekFrom) -> io::Result<u64> {
        self.record.call("seek", self.path)?;
        let SeekFrom::Start(place) = to else {
            return unsupported();
        };
        self.left = &self.bytes[self.bytes.len().min(place as usize)..];
        Ok(place)
    }
}

impl<'a> OpenFile for Opened<'a> {
    fn metadata(&self) -> io::Result<Metadata> {
        unsupported()
    }

    fn set_len(&self, _size: u64) -> io::Result<()> {
        unsupported()
    }

    fn sync_all(&self) -> io::Result<()> {
        unsupported()
    }

    fn sync_data(&self) -> io::Result<()> {
        unsupported()
    }
}
