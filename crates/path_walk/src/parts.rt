//! What is left of a path.
ghost use Rattle.std.specs.Prelude.{◌≡◌, ◌∷◌, ◌++◌, [], map, length, nat_lt, ◌==◌, IfOk, OnOk, MatchOption};
ghost use Rattle.std.specs.List.{filter, slice_split};
ghost use Rattle.history_model.specs.Walk.{is_empty, parts_of};

use lufs_base::{Mem, Name};
use std::alloc::{AllocError, Global};
use std::marker::Model;

/// The parts that are left of a path, which contracts see as a list.
#[derive(Drop)]
pub(crate) struct Parts {
    /// The next one is the last of these.
    parts: Vec<Name>,
}

impl Model for Parts {
    ghost use Rattle.std.specs.Prelude.{List, ℕ, reverse};

    ghost Value = { List (List ℕ) };

    ghost view = { λ p. reverse p.parts.items };
}

// What stands between the slashes of a path, without empty parts.
fn between_slashes(alloc: Global, path: &[u8]) -> Result<Vec<&[u8]>, AllocError>
    ensures { IfOk result (λ parts. map (λ part. part.now) parts.items ≡ filter (λ part. nat_lt 0 (length part)) (slice_split (λ b. b == 47) path.now)) }
{
    path.split(|b| *b == b'/')
        .filter(|part| !part.is_empty())
        .collect(alloc)
}

impl Parts {
    /// No parts.
    pub(crate) fn new(alloc: Global) -> Self
        ensures { result ≡ [] }
    {
        Parts {
            parts: Vec::new(alloc),
        }
    }

    pub(crate) fn is_empty(&self) -> bool
        ensures { result ≡ is_empty self.now }
    {
        self.parts.is_empty()
    }

    /// Takes the next part.
    pub(crate) fn next(&mut self) -> Option<Name>
        ensures { MatchOption result (self.old ≡ []) (λ part. self.old ≡ part ∷ self.new) }
    {
        self.parts.pop()
    }

    // Puts a part before the others.
    fn put(&mut self, alloc: Global, part: &[u8]) -> Result<(), Mem>
        ensures { OnOk result (self.new ≡ part.now ∷ self.old) }
    {
        self.parts.push(Name::from_slice(alloc, part)?)?;
        Ok(())
    }

    // Puts these before the others, in their order.
    fn put_all(&mut self, alloc: Global, mut parts: Vec<&[u8]>) -> Result<(), Mem>
        ensures { OnOk result (self.new ≡ map (λ part. part.now) parts.entry.items ++ self.old) }
    {
        while let Some(part) = parts.pop() {
            self.put(alloc, part)?;
        }
        Ok(())
    }

    /// Puts the parts of a path, or of the text of a link, before the others.
    pub(crate) fn put_path(&mut self, alloc: Global, path: &[u8]) -> Result<(), Mem>
        ensures { OnOk result (self.new ≡ parts_of path.now ++ self.old) }
    {
        let parts = between_slashes(alloc, path)?;
        if parts.is_empty() {
            return self.put(alloc, b".");
        }
        self.put_all(alloc, parts)
    }
}
