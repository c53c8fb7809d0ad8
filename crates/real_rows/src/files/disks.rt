//! Steps of disks over files.

use crate::disk_calls::make_call;
use anyhow::{Context, Result, bail};
use real_outside::FileDisk;
use row_words::text_of;
use std::alloc::Global;
use std::fs::File;
use std::rt::Files;

/// Up to three disks over files.
#[derive(Drop)]
pub struct Disks<'a, R: Files<File = File>> {
    files: &'a R,
    first: Option<FileDisk<'a, R>>,
    second: Option<FileDisk<'a, R>>,
    third: Option<FileDisk<'a, R>>,
}

impl<'a, R: Files<File = File>> Disks<'a, R> {
    /// No disk yet.
    pub fn new(files: &'a R) -> Disks<'a, R> {
        Disks {
            files,
            first: None,
            second: None,
            third: None,
        }
    }

    /// Opens or closes a disk, or makes a call of it, and gives what is printed for it. Takes memory.
    pub fn make(&mut self, alloc: Global, words: &[&'a str]) -> Result<String> {
        match words {
            ["open", letter, name] => {
                *self.place(letter)? = Some(FileDisk::new(self.files, name));
                text_of(alloc, "ok")
            }
            ["close", letter] => {
                *self.place(letter)? = None;
                text_of(alloc, "ok")
            }
            [letter, call @ ..] => {
                let disk = self.place(letter)?.as_mut();
                make_call(alloc, disk.context("the disk isn't open")?, call)
            }
            _ => bail!("no step of a disk"),
        }
    }

    /// The place of the disk of this letter.
    fn place(&mut self, letter: &str) -> Result<&mut Option<FileDisk<'a, R>>> {
        match letter {
            "A" => Ok(&mut self.first),
            "B" => Ok(&mut self.second),
            "C" => Ok(&mut self.third),
            _ => bail!("no disk {letter}"),
        }
    }
}
