//! The name of a directory entry, and which names are allowed.
ghost use Rattle.std.specs.Prelude.{◌≡◌, List, [], ℕ, IfOk};
ghost use Rattle.std.specs.List.{list_all};
ghost use Rattle.lufs_base.specs.Name.{is_name, is_name_byte};

use crate::Mem;
use std::alloc::Global;
use std::marker::Model;

/// The name of a directory entry, or one that a path asks for. A directory gives only names that are allowed
/// (`docs/FORMAT.md`, "Directory chunks"), but a path may ask for any.
#[derive(Debug, Drop)]
pub struct Name {
    bytes: Vec<u8>,
}

impl Model for Name {
    ghost Value = { List ℕ };

    ghost view = { λ n. n.bytes.items };
}

impl Name {
    /// The name with these bytes, allowed or not.
    pub fn from_slice(alloc: Global, bytes: &[u8]) -> Result<Self, Mem>
        ensures { IfOk result (λ name. name ≡ bytes.now) }
    {
        let bytes = Vec::from_slice(alloc, bytes)?;
        Ok(Name { bytes })
    }

    /// Takes the bytes away: the name of an unused slot is empty.
    pub fn clear(&mut self)
        ensures { self.new ≡ [] }
    {
        self.bytes.clear();
    }

    pub fn as_slice(&self) -> &[u8]
        ensures { result.now ≡ self.now }
    {
        self.bytes.as_slice()
    }

    /// Whether a directory may give this name (`docs/FORMAT.md`, "Directory chunks").
    pub fn is_allowed(&self) -> bool
        ensures { result ≡ is_name self.now }
    {
        is_name(self.as_slice())
    }
}

/// Whether a directory may give a name of these bytes: 1 to 255 bytes, each from 0x21 to 0x7E and
/// not `/` (`docs/FORMAT.md`, "Directory chunks").
pub fn is_name(bytes: &[u8]) -> bool
    ensures { result ≡ is_name bytes.now }
{
    1 <= bytes.len() && bytes.len() <= 255 && are_name_bytes(bytes)
}

fn are_name_bytes(bytes: &[u8]) -> bool
    ensures { result ≡ list_all is_name_byte bytes.now }
{
    bytes.iter().all(|b| is_name_byte(*b))
}

fn is_name_byte(b: u8) -> bool
    ensures { result ≡ is_name_byte b }
{
    0x21 <= b && b <= 0x7e && b != b'/'
}
