//! What the program does where the system cuts its calls short or fails them. What it does to real files is
//! shown by `tests/outside.sh`.
mod fake;

use crate::{FileDisk, FileHost};
use fake::{Fake, FakeFile, ROOM, System};
use host_io::{Host, Sink, Source};
use sector_disk::Disk;

/// The path of a new file, and that of the directory that is synced for it.
const NAMES: [(&str, &str); 3] = [
    ("folder/volume", "folder"),
    ("volume", "."),
    ("/volume", "/"),
];

/// Which step of a run each of its calls belongs to: the file is found missing, created, set to its length and
/// synced, its directory opened and synced, and its end sought, all for step 0, which makes the disk. A write, a
/// sync and a read follow, and two prints. The last entry is that no call fails.
const STEP_OF_CALL: [usize; 13] = [0, 0, 0, 0, 0, 0, 0, 1, 2, 3, 4, 5, 6];

/// How many bytes a call moves at most, how many calls there are from the look at the file to a sector's write
/// and read, and whether both go well.
const CUTS: [(usize, usize, bool); 3] = [(512, 5, true), (300, 7, true), (0, 5, false)];

// Whether the disk has four sectors, and each of its calls goes well.
fn disk_steps(disk: &mut FileDisk<FakeFile<'_>>) -> [bool; 4] {
    if disk.sectors() != 4 {
        return [false; 4];
    }
    [
        true,
        disk.write(1, &[7; 512]).is_ok(),
        disk.flush().is_ok(),
        disk.read(1, &mut [0; 512]).is_ok(),
    ]
}

// Whether standard output is given, and takes bytes.
fn sink_steps(host: &mut FileHost<Fake<'_>>) -> [bool; 2] {
    match host.take_sink("-") {
        Ok(mut sink) => [true, sink.put(b"made").is_ok()],
        Err(_) => [false; 2],
    }
}

// How many steps of a run go well before the first one that fails.
fn steps(system: &System) -> usize {
    let mut host = FileHost::new(Fake { system });
    let disk = match host.make_disk(system.name, 4) {
        Ok(mut disk) => disk_steps(&mut disk),
        Err(_) => [false; 4],
    };
    let sink = sink_steps(&mut host);
    let went = [disk[0], disk[1], disk[2], disk[3], sink[0], sink[1]];
    went.into_iter().position(|went| !went).unwrap_or(6)
}

// Whether a run makes a file of that name and syncs that directory, since there is no other.
fn is_made(name: &'static str, directory: &'static str) -> bool {
    let system = System::new(name, directory);
    steps(&system) == 6 && system.calls.get() == 12 && system.is_there.get()
}

// Whether that step is the first one that fails where that call does. A file that couldn't be made whole isn't
// left.
fn fails_in_step(call: usize, step: usize) -> bool {
    let system = System::new("volume", ".");
    system.fails_at.set(call);
    steps(&system) == step && system.is_there.get() == (call > 5)
}

#[test]
fn new_volumes(rt: HostRuntime) {
    for (name, directory) in NAMES {
        assert!(rt; is_made(name, directory), "{name}");
    }
}

// Whichever call fails, its step does, and none before it.
#[test]
fn each_call_fails(rt: HostRuntime) {
    for (call, step) in STEP_OF_CALL.into_iter().enumerate() {
        assert!(rt; fails_in_step(call, step), "call {call}");
    }
}

// A system with a file of so many bytes, whose calls move so many at most.
fn standing(length: u64, most: usize) -> System {
    let system = System::new("there", ".");
    system.is_there.set(true);
    system.length.set(length);
    system.most.set(most);
    system
}

// Whether a sector is written, where it stands and nowhere else, and read again.
fn goes_through(system: &System, disk: &mut FileDisk<FakeFile<'_>>) -> [bool; 2] {
    if disk.sectors() != 4 {
        return [false; 2];
    }
    let mut sector = [0; 512];
    let written = disk.write(1, &[7; 512]).is_ok();
    let read = disk.read(1, &mut sector).is_ok();
    let mut expected = [0; ROOM];
    expected[512..1024].fill(7);
    [
        written && system.bytes.get() == expected,
        read && sector == [7; 512],
    ]
}

// Whether a sector's write and read take so many calls, and both go well or both fail.
fn is_cut(most: usize, calls: usize, goes_well: bool) -> bool {
    let system = standing(2048, most);
    let mut host = FileHost::new(Fake { system: &system });
    let Ok(mut disk) = host.take_disk("there") else {
        return false;
    };
    let went = goes_through(&system, &mut disk);
    let faults = if goes_well { 0 } else { 2 };
    went == [goes_well; 2] && disk.faults() == faults && system.calls.get() == calls
}

// A read or a write that the system cuts short goes on where it was cut, and one that moves nothing
// fails.
#[test]
fn short_reads_and_writes(rt: HostRuntime) {
    for (most, calls, goes_well) in CUTS {
        assert!(rt; is_cut(most, calls, goes_well), "{most} bytes");
    }
}

// How many bytes a take of five gives, and 9 where it fails.
fn taken<S: Source>(source: &mut S) -> usize {
    source.take(&mut [0; 5]).unwrap_or(9)
}

// Whether a source of five bytes, four of which are moved at most, gives all, then none, and then tells a read
// that fails.
fn source_goes_on() -> bool {
    let system = standing(5, 4);
    system.fails_at.set(5);
    let mut host = FileHost::new(Fake { system: &system });
    let Ok(mut source) = host.take_source("there") else {
        return false;
    };
    let all = [
        taken(&mut source),
        taken(&mut source),
        taken(&mut source),
        taken(&mut source),
    ];
    all == [4, 1, 0, 9] && source.faults() == 1
}

// A source goes on where the system cut a read short, and a read that fails isn't the end.
#[test]
fn calls_of_a_source(rt: HostRuntime) {
    assert!(rt; source_goes_on());
}
