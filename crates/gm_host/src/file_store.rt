//! The store over the real files of the system.

ghost use Rattle.std.specs.Prelude.{◌≡◌, ◌+◌, ◌≤◌, ◌↔◌, ◌∷◌, ◌++◌, [], IfOk, OnOk, IsTrue, is_err, length, if◌then◌else◌};
ghost use Rattle.gm_host.specs.Count.{counted, Rises};
ghost use Rattle.gm_host.specs.Store.{untold, Lacks, IsHeld, IsCutFromHeld, HoldsLongerFile, IsFailed, OnAbsent, OnFailed, IfTooLong, IsAbsentUnlessFailing, IsTooLongUnlessFailing};
ghost use Rattle.gm_host.specs.Saves as saving;
ghost use Rattle.gm_host.specs.Saves.{IsSaved, IsSavedInPart};

use crate::fault::{LoadFault, SaveFault};
use crate::names::{Asked, Names};
use crate::opened::read_opened;
use crate::replacing::write_file;
use crate::store::Store;
use std::alloc::Global;
use std::fs;
use std::fs::{File, Files};
use std::marker::Model;

/// The files of the system, by name. It does not tell what it holds, a file that is not there is
/// `Failed`, and each load or save that is `Failed` raises its count of faults.
///
/// A save over a regular file, or under a name that is nothing's, writes a new file beside it first,
/// under the name, a dot and the first number from 0 to 999 that is free. Once the disk has all bytes
/// the new file takes the name and the access of the old one, which must be a file that may be
/// written, and its owner and group where the process may give them. A link to a regular file stays,
/// and the file is replaced where it lies. So a save that is `Failed` leaves the old file as it was,
/// and a process that is ended in the middle leaves the old file or the new one, and perhaps the file
/// beside it, which the next save takes away. Other names that the old file had keep the old bytes.
///
/// What is no regular file, as a device, a pipe or a link to nothing, is written through: there a save
/// that is `Failed` may have written some of the bytes. A file that the standard output goes to is
/// `Failed` before anything is written. Only the target of a link takes memory, and where that
/// runs out the save is `Failed`.
#[derive(Drop)]
pub struct FileStore<'r, R> {
    rt: &'r R,
    loads: u64,
    loaded: Names,
    load_faults: u64,
    saves: u64,
    save_faults: u64,
}

impl<'r, R> Model for FileStore<'r, R> {
    ghost use Rattle.gm_host.specs.inner.FileStore.{Counts};

    ghost Value = { Counts };

    ghost view = { λ store. record { loads = store.loads; loaded = store.loaded.items; load_faults = store.load_faults; saves = store.saves; save_faults = store.save_faults } };
}

impl<'r, R: Files> FileStore<'r, R> {
    /// The files that this runtime reaches.
    pub fn new(rt: &'r R) -> FileStore<'r, R>
        ensures { result ≡ record { loads = 0; loaded = []; load_faults = 0; saves = 0; save_faults = 0 } }
    {
        FileStore {
            rt,
            loads: 0,
            loaded: Names::new(),
            load_faults: 0,
            saves: 0,
            save_faults: 0,
        }
    }
}

impl<'r, R: Files<File = File> + AllocGlobal> Store for FileStore<'r, R> {
    ghost holds = { λ _. untold };

    ghost loads = { λ store. store.loads };

    ghost loaded = { λ store. store.loaded };

    ghost saves = { λ store. store.saves };

    ghost load_faults = { λ store. store.load_faults };

    ghost save_faults = { λ store. store.save_faults };

    fn load(&mut self, alloc: Global, name: &str, limit: usize) -> Result<Vec<u8>, LoadFault>
        ensures held { untold ≡ untold }
        ensures each_load_counts { self.new.loads ≡ counted self.old.loads }
        ensures each_name_kept { self.new.loaded ≡ self.old.loaded ++ name.now ∷ [] }
        ensures no_save { self.new.saves ≡ self.old.saves }
        ensures faults_never_fall { self.old.load_faults ≤ self.new.load_faults }
        ensures no_save_fault { self.new.save_faults ≡ self.old.save_faults }
        ensures within_limit { IfOk result (λ bytes. length bytes.items ≤ limit) }
        ensures bytes_held { IfOk result (λ bytes. IsHeld untold name.now bytes.items) }
        ensures absent { OnAbsent result (Lacks untold name.now) }
        ensures lacking { Lacks untold name.now → IsAbsentUnlessFailing result }
        ensures failed { OnFailed result (Rises self.old.load_faults self.new.load_faults) }
        ensures seen_length { IfTooLong result (λ seen. length seen ≡ limit + 1) }
        ensures seen_held { IfTooLong result (λ seen. IsCutFromHeld untold name.now limit seen) }
        ensures longer { HoldsLongerFile untold name.now limit → IsTooLongUnlessFailing result }
        ensures ok_no_fault { OnOk result (self.new.load_faults ≡ self.old.load_faults) }
        ensures no_fault { ¬ IsFailed result → self.new.load_faults ≡ self.old.load_faults }
        ensures each_fault_counts { OnFailed result (self.new.load_faults ≡ counted self.old.load_faults) }
    {
        self.loads = self.loads.saturating_add(1);
        self.loaded = self.loaded.and(&Asked { name });
        let answer = read_opened(fs::open(self.rt, name), alloc, limit);
        if is_failed(&answer) {
            self.load_faults = self.load_faults.saturating_add(1);
        }
        answer
    }

    fn save(&mut self, name: &str, bytes: &[u8]) -> Result<(), SaveFault>
        ensures each_save_counts { self.new.saves ≡ counted self.old.saves }
        ensures no_load { self.new.loads ≡ self.old.loads }
        ensures no_name { self.new.loaded ≡ self.old.loaded }
        ensures no_load_fault { self.new.load_faults ≡ self.old.load_faults }
        ensures faults_never_fall { self.old.save_faults ≤ self.new.save_faults }
        ensures ok { OnOk result (IsSaved untold name.now bytes.now untold) }
        ensures failed { saving.OnFailed result (Rises self.old.save_faults self.new.save_faults) }
        ensures kept { saving.OnFailed result (IsSavedInPart untold name.now bytes.now untold) }
        ensures out_of_memory { saving.OnOutOfMemory result (untold ≡ untold) }
        ensures no_fault { saving.OnOutOfMemory result (self.new.save_faults ≡ self.old.save_faults) }
        ensures ok_no_fault { OnOk result (self.new.save_faults ≡ self.old.save_faults) }
        ensures enough_memory { ¬ saving.IsOutOfMemory result }
        ensures each_fault_counts { self.new.save_faults ≡ (if is_err result then counted self.old.save_faults else self.old.save_faults) }
    {
        self.saves = self.saves.saturating_add(1);
        let answer = write_file(self.rt, name, bytes);
        if answer.is_err() {
            self.save_faults = self.save_faults.saturating_add(1);
        }
        answer
    }
}

/// Whether the answer is that the store failed.
fn is_failed(answer: &Result<Vec<u8>, LoadFault>) -> bool
    ensures { IsTrue result ↔ IsFailed answer.now }
{
    matches!(answer, Err(LoadFault::Failed))
}
