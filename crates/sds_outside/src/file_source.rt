// Files of std to be read. They tell nothing, and each error counts as a fault.
ghost use Rattle.std.specs.Prelude.{◌≡◌, None, OnOk, IsErr};
ghost use Rattle.std.specs.Io.KnownBytes.{ReadConsumes};
ghost use Rattle.sds_outside.specs.Causes.{HasCause};
ghost use Rattle.sds_outside.specs.Told.{Reads};

use crate::{Failed, Source};
use std::fs;
use std::io::Read;
use std::rt::Files;

/// A file of std as a source that tells nothing. It gives what the file gives, and each error of the file
/// counts as a fault. Where the file could not be opened, each reading fails and counts as a fault, so that a
/// missing file never seems to be an empty one.
#[derive(Drop)]
pub struct FileSource<F> {
    file: Option<F>,
    faults: u64,
}

impl<F: Read> FileSource<F> {
    ghost use Rattle.sds_outside.specs.FileSources.{file_of, file_faults};

    /// A source over this file, or over none that could be opened, without faults so far.
    pub fn new(file: Option<F>) -> FileSource<F>
        ensures file { file_of result ≡ file }
        ensures faults { file_faults result ≡ 0 }
    {
        FileSource { file, faults: 0 }
    }

    /// Opens the file at this path for reading. A path that doesn't begin with a slash begins in the folder in
    /// which the program was called.
    pub fn open<R: Files<File = F>>(rt: &R, path: &str) -> FileSource<F>
        ensures faults { file_faults result ≡ 0 }
    {
        FileSource::new(fs::open(rt, path).ok())
    }
}

impl<F: Read> Source for FileSource<F> {
    ghost use Rattle.sds_outside.specs.FileSources.{file_of, file_faults, known_of};

    ghost left = { λ s. None };

    ghost faults = { file_faults };

    fn read(&mut self, into: &mut [u8]) -> Result<usize, Failed>
        ensures bytes { Reads None None result into.new }
        ensures passed { ReadConsumes (known_of F.remaining (file_of self.old)) (known_of F.remaining (file_of self.new)) result into.new }
        ensures missing { file_of self.old ≡ None → IsErr result }
        ensures stays { file_of self.old ≡ None → file_of self.new ≡ None }
        ensures cause { HasCause (file_faults self.old) (file_faults self.new) result }
        ensures quiet { OnOk result (file_faults self.new ≡ file_faults self.old) }
    {
        let read = match &mut self.file {
            Some(file) => file.read(into).ok(),
            None => None,
        };
        match read {
            Some(count) => Ok(count),
            None => {
                self.faults = self.faults.saturating_add(1);
                Err(Failed)
            }
        }
    }
}
