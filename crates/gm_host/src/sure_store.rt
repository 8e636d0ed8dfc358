//! A store in memory that holds all that is saved in it.

ghost use Rattle.std.specs.Prelude.{◌≡◌, ◌+◌, ◌≤◌, ◌∷◌, ◌++◌, [], OnOk, OnErr, IfOk, option_copied, length};
ghost use Rattle.std.specs.FinMap as map;
ghost use Rattle.gm_host.specs.inner.Files.{told};
ghost use Rattle.gm_host.specs.Count.{counted, Rises};
ghost use Rattle.gm_host.specs.Store.{Lacks, IsHeld, IsCutFromHeld, HoldsLongerFile, IsFailed, OnAbsent, OnFailed, IfTooLong, IsAbsentUnlessFailing, IsTooLongUnlessFailing};
ghost use Rattle.gm_host.specs.inner.SureStore.{no_faults};
ghost use Rattle.gm_host.specs.Saves as saving;
ghost use Rattle.gm_host.specs.Saves.{IsSaved, IsSavedInPart};

use crate::fault::{LoadFault, SaveFault};
use crate::file_table::FileTable;
use crate::names::{Asked, Names};
use crate::store::Store;
use gm_model::OutOfMemory;
use std::alloc::Global;
use std::marker::Model;

/// A store in memory that never fails.
#[derive(Drop)]
pub struct SureStore {
    files: FileTable,
    loads: u64,
    loaded: Names,
    saves: u64,
}

impl Model for SureStore {
    ghost use Rattle.gm_host.specs.inner.SureStore.{StoreState, state_code};

    ghost Value = { StoreState };

    ghost coded = { state_code };

    ghost view = { λ store. record { files = store.files; loads = store.loads; loaded = store.loaded.items; saves = store.saves } };
}

impl SureStore {
    /// A store that holds nothing.
    pub fn new(alloc: Global) -> SureStore
        ensures { result ≡ record { files = map.empty; loads = 0; loaded = []; saves = 0 } }
    {
        SureStore {
            files: FileTable::new(alloc),
            loads: 0,
            loaded: Names::new(),
            saves: 0,
        }
    }

    /// Holds the bytes under the name, in place of what was held there.
    pub fn hold(&mut self, name: &str, bytes: &[u8]) -> Result<(), OutOfMemory>
        ensures ok { OnOk result (self.new ≡ record self.old { files = map.insert self.old.files name.now bytes.now }) }
        ensures err { OnErr result (self.new ≡ self.old) }
    {
        self.files.hold(name, bytes)
    }

    /// The bytes that are held under the name.
    pub fn bytes(&self, name: &str) -> Option<&[u8]>
        ensures { option_copied result ≡ map.get self.now.files name.now }
    {
        self.files.get(name)
    }
}

impl Store for SureStore {
    ghost holds = { λ store. told store.files };

    ghost loads = { λ store. store.loads };

    ghost loaded = { λ store. store.loaded };

    ghost saves = { λ store. store.saves };

    ghost load_faults = { λ _. no_faults };

    ghost save_faults = { λ _. no_faults };

    fn load(&mut self, alloc: Global, name: &str, limit: usize) -> Result<Vec<u8>, LoadFault>
        ensures held { told self.new.files ≡ told self.old.files }
        ensures each_load_counts { self.new.loads ≡ counted self.old.loads }
        ensures each_name_kept { self.new.loaded ≡ self.old.loaded ++ name.now ∷ [] }
        ensures no_save { self.new.saves ≡ self.old.saves }
        ensures faults_never_fall { no_faults ≤ no_faults }
        ensures no_save_fault { no_faults ≡ no_faults }
        ensures within_limit { IfOk result (λ bytes. length bytes.items ≤ limit) }
        ensures bytes_held { IfOk result (λ bytes. IsHeld (told self.old.files) name.now bytes.items) }
        ensures absent { OnAbsent result (Lacks (told self.old.files) name.now) }
        ensures lacking { Lacks (told self.old.files) name.now → IsAbsentUnlessFailing result }
        ensures failed { OnFailed result (Rises no_faults no_faults) }
        ensures seen_length { IfTooLong result (λ seen. length seen ≡ limit + 1) }
        ensures seen_held { IfTooLong result (λ seen. IsCutFromHeld (told self.old.files) name.now limit seen) }
        ensures longer { HoldsLongerFile (told self.old.files) name.now limit → IsTooLongUnlessFailing result }
        ensures ok_no_fault { OnOk result (no_faults ≡ no_faults) }
        ensures no_fault { ¬ IsFailed result → no_faults ≡ no_faults }
        ensures never_fails { ¬ IsFailed result }
        ensures after { self.new ≡ record self.old { loads = counted self.old.loads; loaded = self.old.loaded ++ name.now ∷ [] } }
    {
        self.loads = self.loads.saturating_add(1);
        self.loaded = self.loaded.and(&Asked { name });
        self.files.load(alloc, name, limit)
    }

    fn save(&mut self, name: &str, bytes: &[u8]) -> Result<(), SaveFault>
        ensures each_save_counts { self.new.saves ≡ counted self.old.saves }
        ensures no_load { self.new.loads ≡ self.old.loads }
        ensures no_name { self.new.loaded ≡ self.old.loaded }
        ensures no_load_fault { no_faults ≡ no_faults }
        ensures faults_never_fall { no_faults ≤ no_faults }
        ensures ok { OnOk result (IsSaved (told self.old.files) name.now bytes.now (told self.new.files)) }
        ensures failed { saving.OnFailed result (Rises no_faults no_faults) }
        ensures kept { saving.OnFailed result (IsSavedInPart (told self.old.files) name.now bytes.now (told self.new.files)) }
        ensures out_of_memory { saving.OnOutOfMemory result (told self.new.files ≡ told self.old.files) }
        ensures no_fault { saving.OnOutOfMemory result (no_faults ≡ no_faults) }
        ensures ok_no_fault { OnOk result (no_faults ≡ no_faults) }
        ensures never_fails { ¬ saving.IsFailed result }
        ensures after { OnOk result (self.new ≡ record self.old { files = map.insert self.old.files name.now bytes.now; saves = counted self.old.saves }) }
        ensures unmade { OnErr result (self.new ≡ record self.old { saves = counted self.old.saves }) }
    {
        self.saves = self.saves.saturating_add(1);
        self.files.hold(name, bytes)?;
        Ok(())
    }
}
