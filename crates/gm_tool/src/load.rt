//! A file's bytes, loaded for a command.

ghost use Rattle.std.specs.Prelude.{◌≡◌, ◌≤◌, ◌∷◌, ◌++◌, []};
ghost use Rattle.gm_host.specs.Count.{counted, Rises};
ghost use Rattle.gm_tool.specs.inner.Replies.{IsLoading, no_file_for};

use crate::refusal::{NoText, Refusal, Role};
use crate::reply::MOST_BYTES;
use gm_host::{LoadFault, Store};
use std::alloc::Global;

fn no_file(role: Role, fault: LoadFault) -> NoText
    ensures { result ≡ no_file_for role fault }
{
    match fault {
        LoadFault::Absent | LoadFault::Failed => NoText::Refused(Refusal::Load(role)),
        LoadFault::TooLong { seen: _ } => NoText::Refused(Refusal::Size(role)),
        LoadFault::OutOfMemory => NoText::OutOfMemory,
    }
}

/// The bytes of the file with this name, by one load.
pub fn load_file<S: Store>(
    alloc: Global,
    name: &str,
    role: Role,
    store: &mut S,
) -> Result<Vec<u8>, NoText>
    ensures held { S.holds store.new ≡ S.holds store.old }
    ensures no_save { S.saves store.new ≡ S.saves store.old }
    ensures no_save_fault { S.save_faults store.new ≡ S.save_faults store.old }
    ensures faults_never_fall { S.load_faults store.old ≤ S.load_faults store.new }
    ensures once { S.loads store.new ≡ counted (S.loads store.old) }
    ensures named { S.loaded store.new ≡ S.loaded store.old ++ name.now ∷ [] }
    ensures loading { IsLoading (S.holds store.old) name.now role (Rises (S.load_faults store.old) (S.load_faults store.new)) result }
{
    match store.load(alloc, name, MOST_BYTES) {
        Ok(bytes) => Ok(bytes),
        Err(fault) => Err(no_file(role, fault)),
    }
}
