//! Where a text is written: into memory that grows, or into a buffer of a fixed size.
ghost use Rattle.std.specs.Prelude.{◌≡◌, true, [], IfOk};
ghost use Rattle.script_text.specs.Output.{Told, Puts};

use arrayvec::ArrayVec;
use lufs_base::{Bytes, Mem};
use std::alloc::Global;
use std::marker::Model;

/// The most bytes of the line of a reply.
pub(crate) const MOST_REPLY: usize = 8256;

/// Takes a text, piece by piece. Whether it took all is asked at the end.
pub(crate) trait Output {
    /// What was put, and whether none of it is missing.
    ghost told: { Self → Told };

    /// Adds these bytes at the end.
    fn put(&mut self, bytes: &[u8])
        ensures { Puts bytes.now (told self.old) (told self.new) };
}

/// A text in a buffer of `MOST_REPLY` bytes. It takes no memory.
#[derive(Drop)]
pub(crate) struct ShortText {
    bytes: ArrayVec<u8, 8256>,
    is_whole: bool,
}

impl Model for ShortText {
    ghost use Rattle.std.specs.Prelude.{◌-◌, length};
    ghost use Rattle.script_text.specs.Output.{Told};

    ghost Value = { Told };

    ghost view = { λ t. record { text = t.bytes.items; whole = t.is_whole; room = 8257 - length t.bytes.items } };
}

impl ShortText {
    pub(crate) fn new() -> Self
        ensures { result ≡ record { text = []; whole = true; room = 8257 } }
    {
        ShortText {
            bytes: ArrayVec::new(),
            is_whole: true,
        }
    }

    pub(crate) fn as_slice(&self) -> &[u8]
        ensures { result.now ≡ self.now.text }
    {
        self.bytes.as_slice()
    }
}

impl Output for ShortText {
    ghost told = { λ t. t };

    fn put(&mut self, bytes: &[u8]) {
        if self.is_whole {
            self.is_whole = self.bytes.try_extend_from_slice(bytes).is_ok();
        }
    }
}

/// A text of any length.
#[derive(Drop)]
pub(crate) struct LongText {
    bytes: Vec<u8>,
    is_whole: bool,
}

impl Model for LongText {
    ghost use Rattle.script_text.specs.Output.{Told};

    ghost Value = { Told };

    ghost view = { λ t. record { text = t.bytes.items; whole = t.is_whole; room = 0 } };
}

impl LongText {
    pub(crate) fn new(alloc: Global) -> Self
        ensures { result ≡ record { text = []; whole = true; room = 0 } }
    {
        LongText {
            bytes: Vec::new(alloc),
            is_whole: true,
        }
    }

    /// The whole text, or an `Err` where memory ran out.
    pub(crate) fn into_bytes(self) -> Result<Bytes, Mem>
        ensures whole { IfOk result (λ bytes. self.whole ≡ true) }
        ensures text { IfOk result (λ bytes. bytes ≡ self.text) }
    {
        if self.is_whole {
            Ok(Bytes::from_vec(self.bytes))
        } else {
            Err(Mem)
        }
    }
}

impl Output for LongText {
    ghost told = { λ t. t };

    fn put(&mut self, bytes: &[u8]) {
        if self.is_whole {
            self.is_whole = self.bytes.extend_from_slice(bytes).is_ok();
        }
    }
}
