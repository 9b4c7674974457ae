//! Prints how a command ended, and answers the exit status.
ghost use Rattle.std.specs.Prelude.{◌≡◌};
ghost use Rattle.host_io.specs.Outside.{Puts};
ghost use Rattle.lufs_top.specs.Ending.{text_of, scan_line, check_line, mkfs_line};
ghost use Rattle.lufs_top.specs.Run.{Says, status_if_cut};

use crate::check::CheckEnding;
use crate::ending::Ending;
use crate::mkfs::MkfsEnding;
use crate::numbers::BadNumber;
use crate::scan::ScanEnding;
use endings::{put_bad_log, put_line, put_number, put_verdict};
use host_io::{Sink, SinkFault};

/// The status where standard output failed, or the host didn't lend it.
pub(crate) const REPLY_FAULT: u8 = 5;

fn put_scan<K: Sink>(out: &mut K, volume: &str, ended: &ScanEnding) -> Result<(), SinkFault>
    ensures { Puts (scan_line volume.now ended.now) result (K.told out.old) (K.told out.new) }
{
    match ended {
        ScanEnding::Listed(text) => out.put(text.as_bytes()),
        ScanEnding::NotVolume => put_line(out, b"not a volume", volume.as_bytes()),
        ScanEnding::BadHeader => out.put(b"bad log header\n"),
        ScanEnding::BadRun { tid, place } => put_bad_log(out, *tid, *place),
    }
}

fn put_check<K: Sink>(out: &mut K, volume: &str, ended: &CheckEnding) -> Result<(), SinkFault>
    ensures { Puts (check_line volume.now ended.now) result (K.told out.old) (K.told out.new) }
{
    match ended {
        CheckEnding::Checked(verdict) => put_verdict(out, verdict),
        CheckEnding::NotVolume => put_line(out, b"not a volume", volume.as_bytes()),
        CheckEnding::BadHeader => out.put(b"bad log header\n"),
        CheckEnding::BadRun { tid, place } => put_bad_log(out, *tid, *place),
    }
}

fn put_mkfs<K: Sink>(out: &mut K, ended: &MkfsEnding) -> Result<(), SinkFault>
    ensures { Puts (mkfs_line ended.now) result (K.told out.old) (K.told out.new) }
{
    match ended {
        MkfsEnding::Made(text) => out.put(text.as_bytes()),
        MkfsEnding::Refused(BadNumber { word, number }) => {
            put_number(out, b"geometry", word.name().as_bytes(), *number)
        }
    }
}

// Puts the text of an ending. It takes no memory, so that each ending has its text.
fn put_ending<K: Sink>(out: &mut K, ending: &Ending<'_>) -> Result<(), SinkFault>
    ensures { Puts (text_of ending.now) result (K.told out.old) (K.told out.new) }
{
    match ending {
        Ending::Usage => out.put(b"usage\n"),
        Ending::Missing(name) => put_line(out, b"missing", name.as_bytes()),
        Ending::DiskFault(name) => put_line(out, b"disk fault", name.as_bytes()),
        Ending::NoMemory => out.put(b"no memory\n"),
        Ending::Scan { volume, ended } => put_scan(out, volume, ended),
        Ending::Check { volume, ended } => put_check(out, volume, ended),
        Ending::Mkfs(ended) => put_mkfs(out, ended),
        Ending::Drive(ended) => drive_command::put_ending(out, ended),
    }
}

// The status where a put failed: 5 in place of 0.
fn status_if_cut(status: u8) -> u8
    ensures { result ≡ status_if_cut status }
{
    if status == 0 { REPLY_FAULT } else { status }
}

/// Says how a command ended: puts its text and answers its status. If a put failed, it answers 5 in place of 0.
pub(crate) fn report<K: Sink>(out: &mut K, ending: &Ending<'_>) -> u8
    ensures { Says ending.now result (K.told out.old) (K.told out.new) }
{
    match put_ending(out, ending) {
        Ok(()) => ending.status(),
        Err(_) => status_if_cut(ending.status()),
    }
}
