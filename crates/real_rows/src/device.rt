//! Rows of a disk over a device in memory. A row has, separated by `|`, the device's octets, the most of them that one
//! call moves, the numbers of its calls that fail, and the calls of the disk, separated by `;`, as in `disk_calls`.
//!
//! What the calls answer is printed; and after it, separated by ` | `, the device's octets then, and how many calls
//! reached it, with `starved` if a write found no memory.

use crate::disk_calls::make_call;
use crate::steps::{Steps, make_steps};
use crate::texts::octets_text;
use anyhow::{Context, Result, ensure};
use real_outside::{DeviceDisk, MemoryDevice};
use row_words::{Player, read_numbers, read_octets, text_of, three_parts};
use std::alloc::Global;

/// Plays rows of devices, each on its own.
#[derive(Drop)]
pub struct DeviceRows;

impl Player for DeviceRows {
    fn play(&mut self, alloc: Global, row: &str) -> Result<String> {
        let (device, calls) = row.rsplit_once('|').context("no calls")?;
        let mut disk = OverDevice {
            disk: DeviceDisk::over(read_device(alloc, device)?),
        };
        let answers = make_steps(alloc, &mut disk, calls)?;
        let device = device_text(alloc, disk.disk.device())?;
        text_of(alloc, format_args!("{answers} | {device}"))
    }
}

/// A disk over a device in memory.
#[derive(Drop)]
struct OverDevice {
    disk: DeviceDisk<MemoryDevice>,
}

impl<'a> Steps<'a> for OverDevice {
    fn make(&mut self, alloc: Global, words: &[&'a str]) -> Result<String> {
        make_call(alloc, &mut self.disk, words)
    }
}

/// A device with these octets, of which a call moves at most this number, and whose calls of these numbers fail.
fn read_device(alloc: Global, text: &str) -> Result<MemoryDevice> {
    let (octets, most, failing) = three_parts(text, '|')?;
    let octets = read_octets(alloc, octets)?;
    let failing = read_numbers(alloc, failing)?;
    let most = most.trim().parse::<usize>()?;
    Ok(MemoryDevice::new(alloc, octets.as_slice(), most, failing.as_slice())?)
}

/// The octets of a device, and how many calls reached it.
fn device_text(alloc: Global, device: &MemoryDevice) -> Result<String> {
    ensure!(device.is_told(), "a call isn't told");
    let octets = octets_text(alloc, device.bytes())?;
    let calls = device.calls().len();
    let starved = if device.starved() { ", starved" } else { "" };
    text_of(alloc, format_args!("{octets} | {calls}{starved}"))
}
