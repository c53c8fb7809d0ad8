//! Steps of the folder itself.

use crate::texts::octets_text;
use anyhow::{Result, bail};
use row_words::{read_octets, text_of, written};
use std::alloc::Global;
use std::fs::{self, Metadata, Permissions};
use std::io::{self, ErrorKind};
use std::os::unix::fs::{PermissionsExt, symlink};
use std::rt::Files;

/// The bits of a file's mode that say who may read, write and run it.
const MODE_BITS: u32 = 0o777;

/// Makes a step that changes something. Takes memory.
pub fn change<R: AllocGlobal + Files>(rt: &R, words: &[&str]) -> Result<()> {
    match words {
        ["write", name, octets] => {
            let octets = read_octets(rt.alloc(), written(octets))?;
            fs::write(rt, *name, octets.as_slice())?;
        }
        ["folder", name] => fs::create_dir(rt, *name)?,
        ["link", to, name] => symlink(rt, *to, *name)?,
        ["mode", name, bits] => {
            let bits = u32::from_str_radix(bits, 8)?;
            fs::set_permissions(rt, *name, Permissions::from_mode(bits))?;
        }
        ["rename", from, to] => fs::rename(rt, *from, *to)?,
        ["remove", name] => remove(rt, name)?,
        _ => bail!("no step"),
    }
    Ok(())
}

/// Takes a file, a link or an empty folder away.
fn remove<R: Files>(rt: &R, name: &str) -> io::Result<()> {
    if fs::symlink_metadata(rt, name)?.is_dir() {
        return fs::remove_dir(rt, name);
    }
    fs::remove_file(rt, name)
}

/// The octets of a file, or `nothing` if nothing is there. Takes memory.
pub fn content_text(alloc: Global, content: io::Result<Vec<u8>>) -> Result<String> {
    match content {
        Ok(octets) => octets_text(alloc, octets.as_slice()),
        Err(error) if error.kind() == ErrorKind::NotFound => text_of(alloc, "nothing"),
        Err(error) => Err(error.into()),
    }
}

/// Who may read, write and run a file, in octal. Takes memory.
pub fn mode_text(alloc: Global, found: &Metadata) -> Result<String> {
    let bits = found.permissions().mode() & MODE_BITS;
    text_of(alloc, format_args!("{bits:o}"))
}
