//! What an inode is, by its mode.
ghost use Rattle.std.specs.Prelude.{◌≡◌};
ghost use Rattle.volume_model.specs.Format.{is_file, is_directory, is_link};

use crate::Dinode;

impl Dinode {
    /// Whether it is a file.
    pub fn is_file(&self) -> bool
        ensures { result ≡ is_file self.now.mode }
    {
        matches!(self.mode, 0o100000..=0o100777)
    }

    /// Whether it is a directory.
    pub fn is_directory(&self) -> bool
        ensures { result ≡ is_directory self.now.mode }
    {
        matches!(self.mode, 0o040000..=0o040777)
    }

    /// Whether it is a symbolic link.
    pub fn is_link(&self) -> bool
        ensures { result ≡ is_link self.now.mode }
    {
        matches!(self.mode, 0o120000..=0o120777)
    }
}
