//! The table in which a store in memory keeps its files, by name.

ghost use Rattle.std.specs.Prelude.{◌≡◌, ◌+◌, ◌≤◌, OnOk, OnErr, IfOk, Some, option_copied, length};
ghost use Rattle.std.specs.FinMap as map;
ghost use Rattle.gm_host.specs.inner.Files.{told};
ghost use Rattle.gm_host.specs.inner.MemStore.{kept_files};
ghost use Rattle.gm_host.specs.Store.{Lacks, IsHeld, IsCutFromHeld, HoldsLongerFile, IsFailed, OnAbsent, IfTooLong, IsAbsentUnlessFailing, IsTooLongUnlessFailing};

use crate::bytes::first;
use crate::fault::LoadFault;
use gm_model::{Items, OutOfMemory};
use std::alloc::Global;
use std::collections::BTreeMap;
use std::marker::Model;

/// The files of a store in memory. Contracts see the finite map from names to bytes.
#[derive(Drop)]
pub(crate) struct FileTable {
    alloc: Global,
    files: BTreeMap<String, Vec<u8>>,
}

impl Model for FileTable {
    ghost use Rattle.gm_host.specs.inner.Files.{Files, files_code, files_of};

    ghost Value = { Files };

    ghost coded = { files_code };

    ghost view = { λ table. files_of table.files.entries };
}

impl FileTable {
    pub(crate) fn new(alloc: Global) -> FileTable
        ensures { result ≡ map.empty }
    {
        FileTable {
            alloc,
            files: BTreeMap::new(alloc),
        }
    }

    /// Holds the bytes under the name, in place of what was held there.
    pub(crate) fn hold(&mut self, name: &str, bytes: &[u8]) -> Result<(), OutOfMemory>
        ensures ok { OnOk result (self.new ≡ map.insert self.old name.now bytes.now) }
        ensures err { OnErr result (self.new ≡ self.old) }
    {
        let name = String::from_str(self.alloc, name)?;
        let bytes = Vec::from_slice(self.alloc, bytes)?;
        self.files.insert(name, bytes)?;
        Ok(())
    }

    /// Holds this many of the first bytes under the name, at most all, or leaves all as it is.
    pub(crate) fn hold_part(
        &mut self,
        name: &str,
        bytes: &[u8],
        kept: Option<usize>,
    ) -> Result<(), OutOfMemory>
        ensures ok { OnOk result (self.new ≡ kept_files self.old name.now bytes.now kept) }
        ensures err { OnErr result (self.new ≡ self.old) }
    {
        match kept {
            Some(count) => self.hold(name, first(bytes, count)),
            None => Ok(()),
        }
    }

    pub(crate) fn get(&self, name: &str) -> Option<&[u8]>
        ensures { option_copied result ≡ map.get self.now name.now }
    {
        match self.files.get(name) {
            Some(bytes) => Some(bytes.as_slice()),
            None => None,
        }
    }

    /// What a store that holds these files, and does not fail, answers to a load.
    pub(crate) fn load(&self, alloc: Global, name: &str, limit: usize) -> Result<Vec<u8>, LoadFault>
        ensures within_limit { IfOk result (λ bytes. length bytes.items ≤ limit) }
        ensures bytes_held { IfOk result (λ bytes. IsHeld (told self.now) name.now bytes.items) }
        ensures absent { OnAbsent result (Lacks (told self.now) name.now) }
        ensures lacking { Lacks (told self.now) name.now → IsAbsentUnlessFailing result }
        ensures failed { ¬ IsFailed result }
        ensures seen_length { IfTooLong result (λ seen. length seen ≡ limit + 1) }
        ensures seen_held { IfTooLong result (λ seen. IsCutFromHeld (told self.now) name.now limit seen) }
        ensures longer { HoldsLongerFile (told self.now) name.now limit → IsTooLongUnlessFailing result }
    {
        let Some(held) = self.get(name) else {
            return Err(LoadFault::Absent);
        };
        if held.len() <= limit {
            return Ok(Vec::from_slice(alloc, held)?);
        }
        let seen = Vec::from_slice(alloc, &held[..limit + 1])?;
        Err(LoadFault::TooLong {
            seen: Items::new(seen),
        })
    }
}
