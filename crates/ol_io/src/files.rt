//! Files in memory.
ghost use Rattle.std.specs.Prelude.{◌≡◌, MatchOption, None, Some};
ghost use Rattle.std.specs.Str.{bytes_eq};
ghost use Rattle.ol_io.specs.Files.{contents_of};
ghost use Rattle.ol_io.specs.Unread.{left_of};

use std::marker::Model;

/// A name and its bytes. Contracts view it as these two lists of bytes.
#[derive(Debug, Drop)]
pub struct MemFile {
    pub name: String,
    pub bytes: Vec<u8>,
}

impl Model for MemFile {
    ghost use Rattle.std.specs.Prelude.{string_bytes};
    ghost use Rattle.ol_io.specs.Files.{File};

    ghost Value = { File };

    ghost view = { λ f. record { name = string_bytes f.name; bytes = f.bytes.items } };
}

impl MemFile {
    pub(crate) fn is_named(&self, name: &str) -> bool
        ensures { result ≡ bytes_eq self.now.name name.now }
    {
        self.name.as_str() == name
    }

    pub(crate) fn as_bytes(&self) -> &[u8]
        ensures { result.now ≡ self.now.bytes }
    {
        &self.bytes
    }
}

// The place of the first file of this name.
pub(crate) fn find_file(files: &[MemFile], name: &str) -> Option<usize>
    ensures { MatchOption result (contents_of files.now name.now ≡ None)
        (λ place. contents_of files.now name.now ≡ Some (left_of files.now place 0)) }
{
    for (place, file) in files.iter().enumerate() {
        if file.is_named(name) {
            return Some(place);
        }
    }
    None
}
