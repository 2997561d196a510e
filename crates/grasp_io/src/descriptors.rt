//! The three standard descriptors.
use std::fs;
use std::fs::File;
use std::os::fd::AsRawFd;
use std::rt::Files;

const STANDARD: i32 = 2;

/// Files that stand for standard streams with which the program wasn't started, for as long as this is kept.
#[derive(Drop)]
pub struct StandardFiles {
    input: Option<File>,
    output: Option<File>,
    errors: Option<File>,
}

impl StandardFiles {
    /// Opens `/dev/null` on each of the descriptors 0 to 2 that isn't open, so that no socket and no file gets one of these numbers.
    /// To be called before anything else is opened. What can't be opened is left as it is.
    pub fn open<R: Files<File = File>>(files: &R) -> StandardFiles {
        let input = next_standard(files);
        let output = next_standard(files);
        let errors = next_standard(files);
        StandardFiles {
            input,
            output,
            errors,
        }
    }

    /// How many there are, 0 to 3.
    pub fn count(&self) -> u8 {
        u8::from(self.input.is_some())
            + u8::from(self.output.is_some())
            + u8::from(self.errors.is_some())
    }
}

// The system gives the lowest number that is free.
fn next_standard<R: Files<File = File>>(files: &R) -> Option<File> {
    let file = fs::OpenOptions::new()
        .read(true)
        .write(true)
        .open(files, "/dev/null")
        .ok()?;
    if file.as_raw_fd() <= STANDARD {
        Some(file)
    } else {
        None
    }
}
