//! The text of an ending is put on a sink.
ghost use Rattle.std.specs.Prelude.{◌≡◌, ◌++◌};
ghost use Rattle.host_io.specs.Outside.{Puts};
ghost use Rattle.endings.specs.Lines.{named_line};
ghost use Rattle.drive_command.specs.declared.ending.DriveEnding.TheVariants.{ReplyFault, Driven};
ghost use Rattle.drive_command.specs.Ending.{drive_text};

use crate::{DriveEnding, SinkName};
use endings::{put_bad_log, put_both, put_line, put_number, put_unsound};
use host_io::{Sink, SinkFault};

// Puts words, and a name in two parts after them, as one line.
fn put_sink<K: Sink>(out: &mut K, words: &[u8], name: &[u8], suffix: &[u8]) -> Result<(), SinkFault>
    ensures { Puts (named_line words.now (name.now ++ suffix.now)) result (K.told out.old) (K.told out.new) }
{
    put_both(out, words, b" ")?;
    put_both(out, name, suffix)?;
    out.put(b"\n")
}

fn put_reply_fault<K: Sink>(out: &mut K, name: &SinkName<'_>) -> Result<(), SinkFault>
    ensures { Puts (drive_text (ReplyFault name.now)) result (K.told out.old) (K.told out.new) }
{
    match name {
        SinkName::History(volume) => put_sink(out, b"reply fault", volume.as_bytes(), b".history"),
        SinkName::Replies(script) => put_sink(out, b"reply fault", script.as_bytes(), b".out"),
    }
}

fn put_driven<K: Sink>(out: &mut K, text: &[u8], starved: bool) -> Result<(), SinkFault>
    ensures { Puts (drive_text (Driven text.now starved)) result (K.told out.old) (K.told out.new) }
{
    if starved {
        put_both(out, text, b"no memory\n")
    } else {
        put_both(out, text, b"")
    }
}

/// Puts the text of an ending. It takes no memory, so that each ending has its text.
pub fn put_ending<K: Sink>(out: &mut K, ending: &DriveEnding<'_>) -> Result<(), SinkFault>
    ensures { Puts (drive_text ending.now) result (K.told out.old) (K.told out.new) }
{
    match ending {
        DriveEnding::Missing(name) => put_line(out, b"missing", name.as_bytes()),
        DriveEnding::ReadFault(name) => put_line(out, b"read fault", name.as_bytes()),
        DriveEnding::OverLimit { name, limit } => {
            put_number(out, b"over limit", name.as_bytes(), u64::from(*limit))
        }
        DriveEnding::DiskFault(name) => put_line(out, b"disk fault", name.as_bytes()),
        DriveEnding::NotVolume(name) => put_line(out, b"not a volume", name.as_bytes()),
        DriveEnding::BadHeader => out.put(b"bad log header\n"),
        DriveEnding::EpochSpent(name) => put_line(out, b"epoch spent", name.as_bytes()),
        DriveEnding::BadLog { tid, place } => put_bad_log(out, *tid, *place),
        DriveEnding::Unsound(kind, number) => put_unsound(out, *kind, *number),
        DriveEnding::ReplyFault(name) => put_reply_fault(out, name),
        DriveEnding::NoMemory => out.put(b"no memory\n"),
        DriveEnding::Driven { text, starved } => put_driven(out, text.as_slice(), *starved),
    }
}
