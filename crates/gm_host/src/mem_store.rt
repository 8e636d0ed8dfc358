//! A store in memory for tests, whose loads and saves fail where a test says so.

ghost use Rattle.std.specs.Prelude.{◌≡◌, ◌+◌, ◌<◌, ◌≤◌, ◌↔◌, ◌∷◌, ◌++◌, [], ℕ, List, Option, OnOk, OnErr, IfOk, IsTrue, Some, option_copied, length};
ghost use Rattle.std.specs.FinMap as map;
ghost use Rattle.gm_host.specs.inner.Files.{told};
ghost use Rattle.gm_host.specs.Count.{counted, Rises};
ghost use Rattle.gm_host.specs.Store.{Lacks, IsHeld, IsCutFromHeld, HoldsLongerFile, IsFailed, OnAbsent, OnFailed, IfTooLong, IsAbsentUnlessFailing, IsTooLongUnlessFailing};
ghost use Rattle.gm_host.specs.Saves as saving;
ghost use Rattle.gm_host.specs.Saves.{IsSaved, IsSavedInPart};
ghost use Rattle.gm_host.specs.inner.MemStore.{fails_next, after_load, IsSaveAsPlanned};

use crate::fault::{LoadFault, SaveFault};
use crate::file_table::FileTable;
use crate::names::{Asked, Names};
use crate::store::Store;
use gm_model::OutOfMemory;
use std::alloc::Global;
use std::collections::BTreeMap;
use std::marker::Model;

/// A store in memory, whose loads and saves fail where a test names them.
///
/// Loads are numbered from 0 in the order in which they come, whatever they answer, and saves
/// likewise. A load fails exactly where its number was named by [`MemStore::fail_load`]. A save fails
/// exactly where its number was named by [`MemStore::fail_save`], unless memory runs out for the
/// bytes that it keeps.
#[derive(Drop)]
pub struct MemStore {
    files: FileTable,
    failing_loads: Vec<u64>,
    failing_saves: BTreeMap<u64, Option<usize>>,
    loads: u64,
    loaded: Names,
    load_faults: u64,
    saves: u64,
    save_faults: u64,
}

impl Model for MemStore {
    ghost use Rattle.std.specs.FinMap.{from_entries};
    ghost use Rattle.gm_host.specs.inner.MemStore.{StoreState, state_code};

    ghost Value = { StoreState };

    ghost coded = { state_code };

    ghost view = { λ store. record {
      files = store.files;
      failing_loads = store.failing_loads.items;
      failing_saves = from_entries store.failing_saves.entries;
      loads = store.loads;
      loaded = store.loaded.items;
      load_faults = store.load_faults;
      saves = store.saves;
      save_faults = store.save_faults;
    } };
}

impl MemStore {
    /// A store that holds nothing, and of which no load and no save is to fail.
    pub fn new(alloc: Global) -> MemStore
        ensures { result ≡ record { files = map.empty; failing_loads = []; failing_saves = map.empty; loads = 0; loaded = []; load_faults = 0; saves = 0; save_faults = 0 } }
    {
        MemStore {
            files: FileTable::new(alloc),
            failing_loads: Vec::new(alloc),
            failing_saves: BTreeMap::new(alloc),
            loads: 0,
            loaded: Names::new(),
            load_faults: 0,
            saves: 0,
            save_faults: 0,
        }
    }

    /// Holds the bytes under the name, in place of what was held there.
    pub fn hold(&mut self, name: &str, bytes: &[u8]) -> Result<(), OutOfMemory>
        ensures ok { OnOk result (self.new ≡ record self.old { files = map.insert self.old.files name.now bytes.now }) }
        ensures err { OnErr result (self.new ≡ self.old) }
    {
        self.files.hold(name, bytes)
    }

    /// Makes the load of this number fail. A number that has passed has no effect.
    pub fn fail_load(&mut self, call: u32) -> Result<(), OutOfMemory>
        ensures passed { call < self.old.loads → self.new ≡ self.old }
        ensures ok { self.old.loads ≤ call → OnOk result (self.new ≡ record self.old { failing_loads = self.old.failing_loads ++ call ∷ [] }) }
        ensures err { OnErr result (self.new ≡ self.old) }
    {
        let call = u64::from(call);
        if call >= self.loads {
            self.failing_loads.push(call)?;
        }
        Ok(())
    }

    /// Makes the save of this number fail. It leaves the file as it was, or holds the first `kept` of
    /// its bytes, at most all. The later naming of a number counts. A number that has passed has no
    /// effect.
    pub fn fail_save(&mut self, call: u32, kept: Option<usize>) -> Result<(), OutOfMemory>
        ensures passed { call < self.old.saves → self.new ≡ self.old }
        ensures ok { self.old.saves ≤ call → OnOk result (self.new ≡ record self.old { failing_saves = map.insert self.old.failing_saves call kept }) }
        ensures err { OnErr result (self.new ≡ self.old) }
    {
        let call = u64::from(call);
        if call >= self.saves {
            self.failing_saves.insert(call, kept)?;
        }
        Ok(())
    }

    /// The bytes that are held under the name.
    pub fn bytes(&self, name: &str) -> Option<&[u8]>
        ensures { option_copied result ≡ map.get self.now.files name.now }
    {
        self.files.get(name)
    }
}

impl Store for MemStore {
    ghost holds = { λ store. told store.files };

    ghost loads = { λ store. store.loads };

    ghost loaded = { λ store. store.loaded };

    ghost saves = { λ store. store.saves };

    ghost load_faults = { λ store. store.load_faults };

    ghost save_faults = { λ store. store.save_faults };

    fn load(&mut self, alloc: Global, name: &str, limit: usize) -> Result<Vec<u8>, LoadFault>
        ensures held { told self.new.files ≡ told self.old.files }
        ensures each_load_counts { self.new.loads ≡ counted self.old.loads }
        ensures each_name_kept { self.new.loaded ≡ self.old.loaded ++ name.now ∷ [] }
        ensures no_save { self.new.saves ≡ self.old.saves }
        ensures faults_never_fall { self.old.load_faults ≤ self.new.load_faults }
        ensures no_save_fault { self.new.save_faults ≡ self.old.save_faults }
        ensures within_limit { IfOk result (λ bytes. length bytes.items ≤ limit) }
        ensures bytes_held { IfOk result (λ bytes. IsHeld (told self.old.files) name.now bytes.items) }
        ensures absent { OnAbsent result (Lacks (told self.old.files) name.now) }
        ensures lacking { Lacks (told self.old.files) name.now → IsAbsentUnlessFailing result }
        ensures failed { OnFailed result (Rises self.old.load_faults self.new.load_faults) }
        ensures seen_length { IfTooLong result (λ seen. length seen ≡ limit + 1) }
        ensures seen_held { IfTooLong result (λ seen. IsCutFromHeld (told self.old.files) name.now limit seen) }
        ensures longer { HoldsLongerFile (told self.old.files) name.now limit → IsTooLongUnlessFailing result }
        ensures ok_no_fault { OnOk result (self.new.load_faults ≡ self.old.load_faults) }
        ensures no_fault { ¬ IsFailed result → self.new.load_faults ≡ self.old.load_faults }
        ensures fails_exactly { IsFailed result ↔ IsTrue (fails_next self.old) }
        ensures after { self.new ≡ after_load self.old name.now }
    {
        let call = self.loads;
        self.loads = self.loads.saturating_add(1);
        self.loaded = self.loaded.and(&Asked { name });
        if self.failing_loads.contains(&call) {
            self.load_faults = self.load_faults.saturating_add(1);
            return Err(LoadFault::Failed);
        }
        self.files.load(alloc, name, limit)
    }

    fn save(&mut self, name: &str, bytes: &[u8]) -> Result<(), SaveFault>
        ensures each_save_counts { self.new.saves ≡ counted self.old.saves }
        ensures no_load { self.new.loads ≡ self.old.loads }
        ensures no_name { self.new.loaded ≡ self.old.loaded }
        ensures no_load_fault { self.new.load_faults ≡ self.old.load_faults }
        ensures faults_never_fall { self.old.save_faults ≤ self.new.save_faults }
        ensures ok { OnOk result (IsSaved (told self.old.files) name.now bytes.now (told self.new.files)) }
        ensures failed { saving.OnFailed result (Rises self.old.save_faults self.new.save_faults) }
        ensures kept { saving.OnFailed result (IsSavedInPart (told self.old.files) name.now bytes.now (told self.new.files)) }
        ensures out_of_memory { saving.OnOutOfMemory result (told self.new.files ≡ told self.old.files) }
        ensures no_fault { saving.OnOutOfMemory result (self.new.save_faults ≡ self.old.save_faults) }
        ensures ok_no_fault { OnOk result (self.new.save_faults ≡ self.old.save_faults) }
        ensures as_planned { IsSaveAsPlanned self.old name.now bytes.now result self.new }
    {
        let call = self.saves;
        self.saves = self.saves.saturating_add(1);
        match self.failing_saves.get(&call).copied() {
            Some(kept) => {
                self.files.hold_part(name, bytes, kept)?;
                self.save_faults = self.save_faults.saturating_add(1);
                Err(SaveFault::Failed)
            }
            None => {
                self.files.hold(name, bytes)?;
                Ok(())
            }
        }
    }
}
