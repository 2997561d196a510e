//! A file as a source.
ghost use Rattle.std.specs.Prelude.{◌≡◌, None};

use crate::standard::read_some;
use crate::{Failed, Source};
use std::fs;
use std::fs::File;
use std::rt::Files;

/// A file of the machine, read from its front to its end. It tells no content. Where the file can't be opened, each read fails.
#[derive(Drop)]
pub struct FileSource {
    file: Option<File>,
    faults: u64,
}

impl FileSource {
    /// The file at this path, with no fault so far.
    pub fn open<R: Files<File = File>>(files: &R, path: &str) -> Self
        ensures { ⟦<FileSource as Source>⟧.faults result ≡ 0 }
    {
        FileSource {
            file: fs::open(files, path).ok(),
            faults: 0,
        }
    }
}

impl Source for FileSource {
    ghost left = { λ _. None };

    ghost faults = { λ s. s.faults };

    fn read(&mut self, into: &mut [u8]) -> Result<usize, Failed> {
        let given = match &mut self.file {
            Some(file) => read_some(file, into),
            None => Err(Failed),
        };
        if given.is_err() {
            self.faults = self.faults.saturating_add(1);
        }
        given
    }
}
