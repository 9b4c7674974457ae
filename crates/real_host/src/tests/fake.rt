//! A system of one file in one directory. It counts the calls on it, and can cut each one short, and let
//! one of them fail.
use std::alloc::Allocator;
use std::cell::Cell;
use std::fmt::Display;
use std::fs::{Metadata, OpenFile, OpenOptions};
use std::io;
use std::io::{Error, ErrorKind, Read, Seek, SeekFrom, Write};
use std::os::unix::fs::FileExt;
use std::rt::{Clock, Files};
use std::time::Duration;

/// The bytes that the file can have at most.
pub(super) const ROOM: usize = 2048;

/// What there is, and what was done to it.
#[derive(Drop)]
pub(super) struct System {
    /// The path of the file, and that of its directory. There is nothing else.
    pub(super) name: &'static str,
    pub(super) directory: &'static str,
    pub(super) is_there: Cell<bool>,
    /// How long the file is, in bytes, and those bytes.
    pub(super) length: Cell<u64>,
    pub(super) bytes: Cell<[u8; ROOM]>,
    /// How many bytes one read or write moves at most.
    pub(super) most: Cell<usize>,
    /// Which call fails, from 0.
    pub(super) fails_at: Cell<usize>,
    /// How many calls there were.
    pub(super) calls: Cell<usize>,
}

impl System {
    pub(super) fn new(name: &'static str, directory: &'static str) -> System {
        System {
            name,
            directory,
            is_there: Cell::new(false),
            length: Cell::new(0),
            bytes: Cell::new([0; ROOM]),
            most: Cell::new(usize::MAX),
            fails_at: Cell::new(usize::MAX),
            calls: Cell::new(0),
        }
    }

    fn count(&self) -> io::Result<()> {
        let call = self.calls.get();
        self.calls.set(call.saturating_add(1));
        if call == self.fails_at.get() {
            return Err(Error::from(ErrorKind::Other));
        }
        Ok(())
    }
}

/// A handle to a system.
#[derive(Clone, Copy)]
pub(super) struct Fake<'a> {
    pub(super) system: &'a System,
}

/// The open file, or its directory.
#[derive(Drop)]
pub(super) struct FakeFile<'a> {
    system: &'a System,
    // Where the next read begins.
    place: usize,
}

fn unsupported() -> Error {
    Error::from(ErrorKind::Unsupported)
}

impl<'a> Files for Fake<'a> {
    type File = FakeFile<'a>;

    type Dir = FakeFile<'a>;

    fn open_file(&self, how: &OpenOptions, path: &str) -> io::Result<FakeFile<'a>> {
        let system = self.system;
        how.check()?;
        let is_new = how.asks_create_new();
        if path != system.directory && (path != system.name || system.is_there.get() == is_new) {
            return Err(Error::from(ErrorKind::NotFound));
        }
        system.count()?;
        system.is_there.set(system.is_there.get() || is_new);
        Ok(FakeFile { system, place: 0 })
    }

    fn metadata(&self, path: &str) -> io::Result<Metadata> {
        self.system.count()?;
        if path != self.system.name || !self.system.is_there.get() {
            return Err(Error::from(ErrorKind::NotFound));
        }
        Ok(Metadata::of_file(self.system.length.get()))
    }

    fn open_dir(&self, _path: &str) -> io::Result<FakeFile<'a>> {
        Err(unsupported())
    }

    fn symlink_metadata(&self, _path: &str) -> io::Result<Metadata> {
        Err(unsupported())
    }

    fn copy(&self, _from: &str, _to: &str) -> io::Result<u64> {
        Err(unsupported())
    }

    fn rename(&self, _from: &str, _to: &str) -> io::Result<()> {
        Err(unsupported())
    }

    fn remove_file(&self, path: &str) -> io::Result<()> {
        self.system.count()?;
        if path != self.system.name {
            return Err(Error::from(ErrorKind::NotFound));
        }
        self.system.is_there.set(false);
        Ok(())
    }

    fn create_dir(&self, _path: &str) -> io::Result<()> {
        Err(unsupported())
    }

    fn remove_dir(&self, _path: &str) -> io::Result<()> {
        Err(unsupported())
    }

    fn remove_dir_all<B: Allocator>(&self, _alloc: B, _path: &str) -> io::Result<()> {
        Err(unsupported())
    }
}

impl<'a> Clock for Fake<'a> {
    fn monotonic(&self) -> io::Result<Duration> {
        Err(unsupported())
    }

    fn since_1970(&self) -> io::Result<Duration> {
        Err(unsupported())
    }
}

impl<'a> Print for Fake<'a> {
    fn print<D: Display + Drop>(&self, _value: D) -> io::Result<()> {
        Err(unsupported())
    }

    fn println<D: Display + Drop>(&self, _value: D) -> io::Result<()> {
        Err(unsupported())
    }

    fn write_all(&self, _bytes: &[u8]) -> io::Result<()> {
        self.system.count()
    }
}

impl<'a> FileExt for FakeFile<'a> {
    fn read_at(&self, buf: &mut [u8], offset: u64) -> io::Result<usize> {
        self.system.count()?;
        let bytes = self.system.bytes.get();
        let from = usize::try_from(offset).unwrap_or(usize::MAX);
        let rest = bytes.as_slice().get(from..).unwrap_or(&[]);
        let n = buf.len().min(rest.len()).min(self.system.most.get());
        buf[..n].copy_from_slice(&rest[..n]);
        Ok(n)
    }

    fn write_at(&self, buf: &[u8], offset: u64) -> io::Result<usize> {
        self.system.count()?;
        let mut bytes = self.system.bytes.get();
        let from = usize::try_from(offset).unwrap_or(usize::MAX);
        let rest = bytes.as_mut_slice().get_mut(from..).unwrap_or(&mut []);
        let n = buf.len().min(rest.len()).min(self.system.most.get());
        rest[..n].copy_from_slice(&buf[..n]);
        self.system.bytes.set(bytes);
        Ok(n)
    }
}

impl<'a> OpenFile for FakeFile<'a> {
    fn metadata(&self) -> io::Result<Metadata> {
        Err(unsupported())
    }

    fn set_len(&self, size: u64) -> io::Result<()> {
        self.system.length.set(size);
        self.system.count()
    }

    fn sync_all(&self) -> io::Result<()> {
        self.system.count()
    }

    fn sync_data(&self) -> io::Result<()> {
        Err(unsupported())
    }
}

impl<'a> Seek for FakeFile<'a> {
    fn seek(&mut self, to: SeekFrom) -> io::Result<u64> {
        let SeekFrom::End(0) = to else {
            return Err(unsupported());
        };
        self.system.count()?;
        Ok(self.system.length.get())
    }
}

impl<'a> Read for FakeFile<'a> {
    // It moves zeros.
    fn read(&mut self, buf: &mut [u8]) -> io::Result<usize> {
        self.system.count()?;
        let length = usize::try_from(self.system.length.get()).unwrap_or(usize::MAX);
        let rest = length.saturating_sub(self.place);
        let n = buf.len().min(rest).min(self.system.most.get());
        buf[..n].fill(0);
        self.place = self.place.saturating_add(n);
        Ok(n)
    }
}

impl<'a> Write for FakeFile<'a> {
    fn write(&mut self, _buf: &[u8]) -> io::Result<usize> {
        Err(unsupported())
    }

    fn flush(&mut self) -> io::Result<()> {
        Ok(())
    }
}
