//! The line of a verdict is put on a sink.
ghost use Rattle.std.specs.Prelude.{◌≡◌};
ghost use Rattle.host_io.specs.Outside.{Puts};
ghost use Rattle.volume_model.specs.declared.finding.Verdict.TheVariants.{Clean, Finding};
ghost use Rattle.volume_model.specs.Texts.{field, verdict_text, word_of};

use crate::put::{put_both, put_number};
use host_io::{Sink, SinkFault};
use itoa::Buffer;
use volume_model::{Counts, Kind, Verdict};

// The word that a kind of finding is printed by.
fn word_of(kind: Kind) -> &'static str
    ensures { result.now ≡ word_of kind }
{
    match kind {
        Kind::Group => "group",
        Kind::Inode => "inode",
        Kind::Fields => "fields",
        Kind::Root => "root",
        Kind::Twice => "twice",
        Kind::Chunk => "chunk",
        Kind::Name => "name",
        Kind::Parent => "parent",
        Kind::Links => "links",
        Kind::InodeBit => "inodebit",
        Kind::BlockBit => "blockbit",
        Kind::Count => "count",
    }
}

// Puts words and a number after them.
fn put_field<K: Sink>(out: &mut K, words: &[u8], number: u32) -> Result<(), SinkFault>
    ensures { Puts (field words.now number) result (K.told out.old) (K.told out.new) }
{
    let mut buffer = Buffer::new();
    put_both(out, words, b" ")?;
    out.put(buffer.format(number).as_bytes())
}

fn put_counts<K: Sink>(out: &mut K, counts: &Counts) -> Result<(), SinkFault>
    ensures { Puts (verdict_text (Clean counts.now)) result (K.told out.old) (K.told out.new) }
{
    put_field(out, b"clean inodes", counts.inodes)?;
    put_field(out, b" blocks", counts.blocks)?;
    put_field(out, b" free", counts.free)?;
    out.put(b"\n")
}

/// Puts the line of a finding.
pub fn put_unsound<K: Sink>(out: &mut K, kind: Kind, number: u32) -> Result<(), SinkFault>
    ensures { Puts (verdict_text (Finding kind number)) result (K.told out.old) (K.told out.new) }
{
    let word = word_of(kind).as_bytes();
    put_number(out, b"unsound", word, u64::from(number))
}

/// Puts the line of a verdict.
pub fn put_verdict<K: Sink>(out: &mut K, verdict: &Verdict) -> Result<(), SinkFault>
    ensures { Puts (verdict_text verdict.now) result (K.told out.old) (K.told out.new) }
{
    match verdict {
        Verdict::Clean(counts) => put_counts(out, counts),
        Verdict::Finding(kind, number) => put_unsound(out, *kind, *number),
    }
}
