//! The bytes of a path, as a line has them.
ghost use Rattle.std.specs.Prelude.{◌≡◌, List, ℕ, IfOk, length};

use lufs_base::Mem;
use std::alloc::Global;
use std::marker::Model;

/// The bytes of a path as a line has them (`docs/CALLS.md`, "Walking a path"). Contracts see them as
/// a list.
#[derive(Debug, Drop)]
pub struct PathText {
    bytes: Vec<u8>,
}

impl Model for PathText {
    ghost Value = { List ℕ };

    ghost view = { λ p. p.bytes.items };
}

impl PathText {
    pub fn from_slice(alloc: Global, bytes: &[u8]) -> Result<Self, Mem>
        ensures { IfOk result (λ path. path ≡ bytes.now) }
    {
        let bytes = Vec::from_slice(alloc, bytes)?;
        Ok(PathText { bytes })
    }

    pub fn as_slice(&self) -> &[u8]
        ensures { result.now ≡ self.now }
    {
        self.bytes.as_slice()
    }

    pub fn len(&self) -> usize
        ensures { result ≡ length self.now }
    {
        self.bytes.len()
    }
}
