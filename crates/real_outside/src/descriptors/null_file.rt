//! The real null device.

ghost use Rattle.std.specs.Prelude.{None};
ghost use Rattle.std.specs.Fd.{file_raw_fd};

use super::NullDevice;
use crate::system_error::{SystemError, system_answer};
use std::fs::{File, OpenOptions};
use std::os::fd::AsRawFd;
use std::rt::Files;

/// The null device of the system, `/dev/null`. How its openings ended can't be observed.
#[derive(Drop)]
pub struct NullFile<'a, R> {
    files: &'a R,
}

impl<'a, R: Files<File = File>> NullFile<'a, R> {
    /// The null device of these files.
    pub fn new(files: &'a R) -> NullFile<'a, R> {
        NullFile { files }
    }
}

impl<'a, R: Files<File = File>> NullDevice for NullFile<'a, R> {
    type Opened = File;

    ghost answers = { λ _. None };

    ghost descriptor = { file_raw_fd };

    fn open(&mut self) -> Result<File, SystemError> {
        system_answer(
            OpenOptions::new()
                .read(true)
                .write(true)
                .open(self.files, "/dev/null"),
        )
    }

    fn descriptor(&self, opened: &File) -> i32 {
        opened.as_raw_fd()
    }
}
