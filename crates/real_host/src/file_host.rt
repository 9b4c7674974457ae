//! The host of the program: files by their paths, standard output, and the clock.
ghost use Rattle.std.specs.Prelude.{◌≡◌, None};
ghost use Rattle.lufs_base.specs.Causes.{counted};
ghost use Rattle.host_io.specs.declared.host.HostError.TheVariants.{Missing, Failed};

use crate::file_disk::FileDisk;
use crate::file_sink::FileSink;
use crate::file_source::FileSource;
use host_io::{Host, HostError};
use std::fs::{File, FileType, OpenFile, OpenOptions};
use std::os::unix::fs::{FileExt, FileTypeExt};
use std::path::Path;
use std::rt::{Clock, Files};
use std::time::{SystemTime, UNIX_EPOCH};
use std::{fs, io};

/// The name of standard output.
const STANDARD_OUTPUT: &str = "-";

/// The files of a system by their paths, its standard output under the name `-`, and its clock. It tells
/// nothing of what they hold. It counts each `Failed` and each `Missing` that it answers.
#[derive(Drop)]
pub struct FileHost<R> {
    rt: R,
    faults: u64,
    absent: u64,
}

impl<R: Drop> FileHost<R> {
    pub fn new(rt: R) -> Self {
        FileHost {
            rt,
            faults: 0,
            absent: 0,
        }
    }
}

impl<R> FileHost<R> {
    // Counts a take of what isn't there.
    fn missing(&mut self) -> HostError
        ensures error { result ≡ Missing }
        ensures absent { self.new.absent ≡ counted self.old.absent }
        ensures faults { self.new.faults ≡ self.old.faults }
    {
        self.absent = self.absent.saturating_add(1);
        HostError::Missing
    }

    // Counts a take or a make that failed.
    fn failed(&mut self) -> HostError
        ensures error { result ≡ Failed }
        ensures absent { self.new.absent ≡ self.old.absent }
        ensures faults { self.new.faults ≡ counted self.old.faults }
    {
        self.faults = self.faults.saturating_add(1);
        HostError::Failed
    }
}

// Nothing else is read and written by sectors at any place. Opening a fifo could wait forever, and opening
// another device could change it.
fn may_be_volume(kind: FileType) -> bool {
    kind.is_file() || kind.is_block_device()
}

// A volume that may not be written can be read.
fn open_volume<R: Files>(rt: &R, name: &str) -> io::Result<FileDisk<R::File>> {
    if !may_be_volume(fs::metadata(rt, name)?.file_type()) {
        return Err(io::Error::from(io::ErrorKind::InvalidInput));
    }
    match OpenOptions::new().read(true).write(true).open(rt, name) {
        Ok(file) => FileDisk::new(file),
        Err(_) => FileDisk::new(File::open(rt, name)?),
    }
}

// A crash keeps a file only once its directory is synced.
fn sync_directory_of<R: Files>(rt: &R, name: &str) -> io::Result<()> {
    let directory = match Path::new(name).parent() {
        Some(parent) if !parent.as_str().is_empty() => parent.as_str(),
        _ => ".",
    };
    File::open(rt, directory)?.sync_all()
}

// A new file, which is on the disk with its name before this answers `Ok`.
fn lay_out<F: OpenFile, R: Files>(rt: &R, name: &str, file: &F, bytes: u64) -> io::Result<()> {
    file.set_len(bytes)?;
    file.sync_all()?;
    sync_directory_of(rt, name)
}

// What can't be made whole is removed, since the next run would use it as it is.
fn make_volume<R: Files>(rt: &R, name: &str, sectors: u64) -> io::Result<FileDisk<R::File>> {
    let Some(bytes) = sectors.checked_mul(512) else {
        return Err(io::Error::from(io::ErrorKind::InvalidInput));
    };
    let file = File::create_new(rt, name)?;
    if let Err(error) = lay_out(rt, name, &file, bytes) {
        let _ = fs::remove_file(rt, name);
        return Err(error);
    }
    FileDisk::new(file)
}

// A file that is already there is used as it is.
fn open_or_make<R: Files>(rt: &R, name: &str, sectors: u64) -> io::Result<FileDisk<R::File>> {
    match open_volume(rt, name) {
        Err(error) if error.kind() == io::ErrorKind::NotFound => make_volume(rt, name, sectors),
        opened => opened,
    }
}

// Only a regular file is read. Opening a fifo could wait forever, and reading a device could never end.
fn open_source<R: Files>(rt: &R, name: &str) -> io::Result<FileSource<R::File>> {
    if !fs::metadata(rt, name)?.file_type().is_file() {
        return Err(io::Error::from(io::ErrorKind::InvalidInput));
    }
    Ok(FileSource::new(File::open(rt, name)?))
}

// Where standard output is closed, the next file that is opened would stand in its place and get what
// is printed. So an empty write finds out first.
fn open_sink<R: Files + Print + Drop>(rt: R, name: &str) -> io::Result<FileSink<R, R::File>> {
    if name == STANDARD_OUTPUT {
        rt.write_some(&[])?;
        return Ok(FileSink::standard(rt));
    }
    Ok(FileSink::file(File::create(&rt, name)?))
}

impl<R: Files + Clock + Print + Copy + Drop> Host for FileHost<R>
where
    R::File: FileExt,
{
    type D = FileDisk<R::File>;

    type S = FileSource<R::File>;

    type K = FileSink<R, R::File>;

    ghost outside = { λ h. record {
      moment = None;
      asks = None;
      holds = None;
      faults = h.faults;
      absent = h.absent;
    } };

    fn faults(&self) -> u64 {
        self.faults
    }

    fn absent(&self) -> u64 {
        self.absent
    }

    /// 0 where the clock can't be read, or stands before 1970.
    fn moment(&mut self) -> u64 {
        match SystemTime::now(&self.rt) {
            Ok(now) => now
                .duration_since(UNIX_EPOCH)
                .map_or(0, |since| since.as_secs()),
            Err(_) => 0,
        }
    }

    /// Opens a regular file or a block device. Anything else of that name is a failure, and so is every error
    /// but that there is nothing of that name.
    fn take_disk(&mut self, name: &str) -> Result<FileDisk<R::File>, HostError> {
        match open_volume(&self.rt, name) {
            Ok(disk) => Ok(disk),
            Err(error) if error.kind() == io::ErrorKind::NotFound => Err(self.missing()),
            Err(_) => Err(self.failed()),
        }
    }

    fn make_disk(&mut self, name: &str, sectors: u64) -> Result<FileDisk<R::File>, HostError> {
        match open_or_make(&self.rt, name, sectors) {
            Ok(disk) => Ok(disk),
            Err(_) => Err(self.failed()),
        }
    }

    fn give_disk(&mut self, _name: &str, disk: FileDisk<R::File>) {
        drop(disk);
    }

    /// Opens a regular file. Anything else of that name is a failure, and so is every error but that there is
    /// nothing of that name.
    fn take_source(&mut self, name: &str) -> Result<FileSource<R::File>, HostError> {
        match open_source(&self.rt, name) {
            Ok(source) => Ok(source),
            Err(error) if error.kind() == io::ErrorKind::NotFound => Err(self.missing()),
            Err(_) => Err(self.failed()),
        }
    }

    fn take_sink(&mut self, name: &str) -> Result<FileSink<R, R::File>, HostError> {
        match open_sink(self.rt, name) {
            Ok(sink) => Ok(sink),
            Err(_) => Err(self.failed()),
        }
    }

    fn give_sink(&mut self, _name: &str, sink: FileSink<R, R::File>) {
        drop(sink);
    }
}
