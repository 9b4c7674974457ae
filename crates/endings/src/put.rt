//! Lines that are put on a sink, piece after piece.
ghost use Rattle.std.specs.Prelude.{◌≡◌, ◌++◌};
ghost use Rattle.host_io.specs.Outside.{Puts};
ghost use Rattle.endings.specs.Lines.{named_line, counted_line, bad_log_line};

use host_io::{Sink, SinkFault};
use itoa::Buffer;

/// Puts two texts, one after the other.
pub fn put_both<K: Sink>(out: &mut K, first: &[u8], second: &[u8]) -> Result<(), SinkFault>
    ensures { Puts (first.now ++ second.now) result (K.told out.old) (K.told out.new) }
{
    out.put(first)?;
    out.put(second)
}

/// Puts words and a name after them, as one line.
pub fn put_line<K: Sink>(out: &mut K, words: &[u8], name: &[u8]) -> Result<(), SinkFault>
    ensures { Puts (named_line words.now name.now) result (K.told out.old) (K.told out.new) }
{
    put_both(out, words, b" ")?;
    put_both(out, name, b"\n")
}

/// Puts words, a name and a number after them, as one line.
pub fn put_number<K: Sink>(
    out: &mut K,
    words: &[u8],
    name: &[u8],
    number: u64,
) -> Result<(), SinkFault>
    ensures { Puts (counted_line words.now name.now number) result (K.told out.old) (K.told out.new) }
{
    let mut buffer = Buffer::new();
    put_both(out, words, b" ")?;
    put_both(out, name, b" ")?;
    put_both(out, buffer.format(number).as_bytes(), b"\n")
}

/// Puts the line of a run of the log that breaks its rules.
pub fn put_bad_log<K: Sink>(out: &mut K, tid: u32, place: u32) -> Result<(), SinkFault>
    ensures { Puts (bad_log_line tid place) result (K.told out.old) (K.told out.new) }
{
    let mut buffer = Buffer::new();
    let tid = buffer.format(tid).as_bytes();
    put_number(out, b"bad log", tid, u64::from(place))
}
