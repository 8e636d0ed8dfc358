//! What a store of files owes those who load from it and save in it.

ghost use Rattle.std.specs.Prelude.{◌≡◌, ◌+◌, ◌≤◌, ◌∷◌, ◌++◌, [], ℕ, List, Option, length, OnOk, IfOk};
ghost use Rattle.gm_host.specs.Count.{counted, Rises};
ghost use Rattle.gm_host.specs.Store.{Lacks, IsHeld, IsCutFromHeld, HoldsLongerFile, IsFailed, OnAbsent, OnFailed, IfTooLong, IsAbsentUnlessFailing, IsTooLongUnlessFailing};
ghost use Rattle.gm_host.specs.Saves as saving;
ghost use Rattle.gm_host.specs.Saves.{IsSaved, IsSavedInPart};

use crate::fault::{LoadFault, SaveFault};
use std::alloc::Global;

/// Files by name.
///
/// Contracts see what the store holds, as a function from names to bytes, or that it does not tell.
/// They see how many loads and how many saves there were, whatever they answered, the names of the
/// loads, in order, and two counts of faults: one rises where a load answers `Failed`, the other where
/// a save does. A count that has reached 18,446,744,073,709,551,615 stays there, and counts as risen
/// from then on. The names take no bytes: proofs alone read them.
pub trait Store {
    ghost holds: { Self → Option (List ℕ → Option (List ℕ)) };

    ghost loads: { Self → ℕ };

    ghost loaded: { Self → List (List ℕ) };

    ghost saves: { Self → ℕ };

    ghost load_faults: { Self → ℕ };

    ghost save_faults: { Self → ℕ };

    /// The bytes of the file `name`, which are at most `limit`.
    ///
    /// A longer file is `TooLong`, and is read no further than one byte past the limit. A file that is
    /// not there is `Absent` where the store tells what it holds, and `Failed` where it does not.
    fn load(&mut self, alloc: Global, name: &str, limit: usize) -> Result<Vec<u8>, LoadFault>
        ensures held { holds self.new ≡ holds self.old }
        ensures each_load_counts { loads self.new ≡ counted (loads self.old) }
        ensures each_name_kept { loaded self.new ≡ loaded self.old ++ name.now ∷ [] }
        ensures no_save { saves self.new ≡ saves self.old }
        ensures faults_never_fall { load_faults self.old ≤ load_faults self.new }
        ensures no_save_fault { save_faults self.new ≡ save_faults self.old }
        ensures within_limit { IfOk result (λ bytes. length bytes.items ≤ limit) }
        ensures bytes_held { IfOk result (λ bytes. IsHeld (holds self.old) name.now bytes.items) }
        ensures absent { OnAbsent result (Lacks (holds self.old) name.now) }
        ensures lacking { Lacks (holds self.old) name.now → IsAbsentUnlessFailing result }
        ensures failed { OnFailed result (Rises (load_faults self.old) (load_faults self.new)) }
        ensures seen_length { IfTooLong result (λ seen. length seen ≡ limit + 1) }
        ensures seen_held { IfTooLong result (λ seen. IsCutFromHeld (holds self.old) name.now limit seen) }
        ensures longer { HoldsLongerFile (holds self.old) name.now limit → IsTooLongUnlessFailing result }
        ensures ok_no_fault { OnOk result (load_faults self.new ≡ load_faults self.old) }
        ensures no_fault { ¬ IsFailed result → load_faults self.new ≡ load_faults self.old };

    /// Makes the bytes those of the file `name`, all of them where the answer is Ok.
    fn save(&mut self, name: &str, bytes: &[u8]) -> Result<(), SaveFault>
        ensures each_save_counts { saves self.new ≡ counted (saves self.old) }
        ensures no_load { loads self.new ≡ loads self.old }
        ensures no_name { loaded self.new ≡ loaded self.old }
        ensures no_load_fault { load_faults self.new ≡ load_faults self.old }
        ensures faults_never_fall { save_faults self.old ≤ save_faults self.new }
        ensures ok { OnOk result (IsSaved (holds self.old) name.now bytes.now (holds self.new)) }
        ensures failed { saving.OnFailed result (Rises (save_faults self.old) (save_faults self.new)) }
        ensures kept { saving.OnFailed result (IsSavedInPart (holds self.old) name.now bytes.now (holds self.new)) }
        ensures out_of_memory { saving.OnOutOfMemory result (holds self.new ≡ holds self.old) }
        ensures no_fault { saving.OnOutOfMemory result (save_faults self.new ≡ save_faults self.old) }
        ensures ok_no_fault { OnOk result (save_faults self.new ≡ save_faults self.old) };
}
