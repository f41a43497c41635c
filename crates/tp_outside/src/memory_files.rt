ghost use Rattle.std.specs.Prelude.{◌≡◌, ◌<◌, ◌≤◌, ◌↔◌, length, take, None, Some, Err, IfOk, OnOk, OnErr, IfSome, IsErr, IsTrue};
ghost use Rattle.std.specs.Option.{option_map};
ghost use Rattle.tp_outside.specs.Calls.{is_next_failing, after_call};
ghost use Rattle.tp_outside.specs.Faults.{HasRisen};
ghost use Rattle.tp_outside.specs.Folder.{with_known_file, with_file, bytes_of, IsPartAt};
ghost use Rattle.tp_outside.specs.MemoryFolder.{folder_of, calls_of};

use crate::calls::CallCount;
use crate::faults::{Failed, WriteError};
use crate::folders::Files;
use std::alloc::{AllocError, Global};
use std::collections::BTreeMap;

/// Files in memory, which tell what they hold and fail where they were asked to.
#[derive(Debug, Drop)]
pub struct MemoryFiles {
    calls: CallCount,
    alloc: Global,
    files: BTreeMap<String, Vec<u8>>,
}

impl MemoryFiles {
    /// No file yet. The calls with a number in `failing` fail; the first call has number 1.
    pub fn new(alloc: Global, failing: &[u64]) -> Result<MemoryFiles, AllocError>
        ensures calls { IfOk result (λ held. calls_of held ≡ record { failing = failing.now; made = 0; faults = 0 }) }
        ensures empty { IfOk result (λ held. (name : _) → folder_of held name ≡ None) }
    {
        Ok(MemoryFiles {
            calls: CallCount::new(alloc, failing)?,
            alloc,
            files: BTreeMap::new(alloc),
        })
    }

    /// What a file holds, or None where there is no such file.
    pub fn bytes(&self, name: &str) -> Option<&[u8]>
        ensures { option_map (λ bytes. bytes.now) result ≡ folder_of self.now name.now }
    {
        self.files.get(name).map(|bytes| bytes.as_slice())
    }

    /// Makes a file hold just these bytes. This is not counted as a call.
    pub fn put(&mut self, name: &str, bytes: &[u8]) -> Result<(), AllocError>
        ensures held { OnOk result (folder_of self.new ≡ with_file (folder_of self.old) name.now bytes.now) }
        ensures unchanged { OnErr result (folder_of self.new ≡ folder_of self.old) }
        ensures calls { calls_of self.new ≡ calls_of self.old }
    {
        let name = String::from_str(self.alloc, name)?;
        let bytes = Vec::from_slice(self.alloc, bytes)?;
        self.files.insert(name, bytes)?;
        Ok(())
    }
}

impl Files for MemoryFiles {
    ghost faults = { λ held. (calls_of held).faults };

    ghost folder = { λ held. Some (folder_of held) };

    fn size(&mut self, name: &str) -> Result<Option<u64>, Failed>
        ensures fails { IsErr result ↔ IsTrue (is_next_failing (calls_of self.old)) }
        ensures calls { calls_of self.new ≡ after_call (calls_of self.old) }

        // As of any files.
        ensures told { IfSome (Some (folder_of self.old)) (λ held.
            IfOk result (λ size. size ≡ option_map length (held name.now))) }
        ensures unchanged { Some (folder_of self.new) ≡ Some (folder_of self.old) }
        ensures counted { (calls_of self.old).faults ≤ (calls_of self.new).faults }
        ensures failed { OnErr result (HasRisen (calls_of self.old).faults (calls_of self.new).faults) }
    {
        if self.calls.begin() {
            return Err(self.calls.fail());
        }
        Ok(self.files.get(name).map(|bytes| bytes.len() as u64))
    }

    fn read_at(&mut self, name: &str, start: u64, into: &mut [u8]) -> Result<usize, Failed>
        ensures fails { IsErr result ↔ IsTrue (is_next_failing (calls_of self.old)) }
        ensures calls { calls_of self.new ≡ after_call (calls_of self.old) }

        // As of any files.
        ensures bound { IfOk result (λ count. count ≤ length into.new) }
        ensures told { IfSome (Some (folder_of self.old)) (λ held.
            IfOk result (λ count. IsPartAt (bytes_of held name.now) start count into.new)) }
        ensures unchanged { Some (folder_of self.new) ≡ Some (folder_of self.old) }
        ensures counted { (calls_of self.old).faults ≤ (calls_of self.new).faults }
        ensures failed { OnErr result (HasRisen (calls_of self.old).faults (calls_of self.new).faults) }
    {
        if self.calls.begin() {
            return Err(self.calls.fail());
        }
        let Some(bytes) = self.files.get(name) else {
            return Ok(0);
        };
        let start = bytes.len().min(start as usize);
        let rest = &bytes[start..];
        let count = rest.len().min(into.len());
        into[..count].copy_from_slice(&rest[..count]);
        Ok(count)
    }

    fn write(&mut self, name: &str, bytes: &[u8]) -> Result<(), WriteError>
        ensures fails { (result ≡ Err WriteError.Failed) ↔ IsTrue (is_next_failing (calls_of self.old)) }
        ensures calls { calls_of self.new ≡ after_call (calls_of self.old) }

        // As of any files.
        ensures held { OnOk result
            (Some (folder_of self.new) ≡ with_known_file (Some (folder_of self.old)) name.now bytes.now) }
        ensures unchanged { OnErr result (Some (folder_of self.new) ≡ Some (folder_of self.old)) }
        ensures counted { (calls_of self.old).faults ≤ (calls_of self.new).faults }
        ensures failed { result ≡ Err WriteError.Failed
            → HasRisen (calls_of self.old).faults (calls_of self.new).faults }
    {
        if self.calls.begin() {
            let Failed = self.calls.fail();
            return Err(WriteError::Failed);
        }
        match self.put(name, bytes) {
            Ok(()) => Ok(()),
            Err(AllocError) => Err(WriteError::NoMemory),
        }
    }
}
