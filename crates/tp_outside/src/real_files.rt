ghost use Rattle.std.specs.Prelude.{◌≡◌, ◌≤◌, None, length, IfOk};

use crate::faults::{Failed, WriteError};
use crate::folders::Files;
use std::fs::File;
use std::io::{ErrorKind, Read, Seek, SeekFrom};
use std::rt::Files as System;
use std::{fs, io};

/// The files of the system, by their paths. It tells nothing of what they hold, and counts each error of the
/// system but that a file isn't there.
#[derive(Debug, Drop)]
pub struct RealFiles<R> {
    system: R,
    faults: u64,
}

impl<R: System> RealFiles<R> {
    /// No fault was met yet.
    pub fn new(system: R) -> RealFiles<R>
        ensures system { result.system ≡ system }
        ensures faults { result.faults ≡ 0 }
    {
        RealFiles { system, faults: 0 }
    }
}

// The bytes of a file from a place on, as many as one read gives.
fn read_part<R: System>(system: &R, name: &str, start: u64, into: &mut [u8]) -> io::Result<usize>
    ensures { IfOk result (λ count. count ≤ length into.new) }
{
    let mut file = File::open(system, name)?;
    file.seek(SeekFrom::Start(start))?;
    file.read(into)
}

impl<R: System> Files for RealFiles<R> {
    ghost faults = { λ files. files.faults };

    ghost folder = { λ _. None };

    fn size(&mut self, name: &str) -> Result<Option<u64>, Failed> {
        match fs::metadata(&self.system, name) {
            Ok(metadata) => Ok(Some(metadata.len())),
            Err(error) if error.kind() == ErrorKind::NotFound => Ok(None),
            Err(_) => {
                self.faults = self.faults.saturating_add(1);
                Err(Failed)
            }
        }
    }

    fn read_at(&mut self, name: &str, start: u64, into: &mut [u8]) -> Result<usize, Failed> {
        match read_part(&self.system, name, start, into) {
            Ok(count) => Ok(count),
            Err(_) => {
                self.faults = self.faults.saturating_add(1);
                Err(Failed)
            }
        }
    }

    fn write(&mut self, name: &str, bytes: &[u8]) -> Result<(), WriteError> {
        match fs::write(&self.system, name, bytes) {
            Ok(()) => Ok(()),
            Err(error) if error.kind() == ErrorKind::OutOfMemory => Err(WriteError::NoMemory),
            Err(_) => {
                self.faults = self.faults.saturating_add(1);
                Err(WriteError::Failed)
            }
        }
    }
}
