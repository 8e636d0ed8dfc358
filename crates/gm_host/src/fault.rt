//! Why a load, a save or a put failed.

ghost use Rattle.std.specs.Prelude.{◌≡◌};

use gm_model::{Items, OutOfMemory};
use std::alloc::AllocError;
use std::io;

/// Why a load gave no file.
#[derive(Debug, Drop)]
pub enum LoadFault {
    /// The store holds no file of that name. Only a store that tells what it holds answers so.
    Absent,
    /// The store failed, which its count of failed loads shows.
    Failed,
    /// The file is longer than the caller's limit.
    TooLong {
        /// The first bytes of the file, one more than the limit.
        seen: Items<u8>,
    },
    /// Memory ran out.
    OutOfMemory,
}

impl From<AllocError> for LoadFault {
    ghost use Rattle.gm_host.specs.declared.fault.LoadFault.TheVariants.{OutOfMemory};

    ghost from_gives = { λ _ fault. fault ≡ OutOfMemory };

    fn from(_error: AllocError) -> LoadFault {
        LoadFault::OutOfMemory
    }
}

/// Why a save did not leave all bytes under the name.
#[derive(Clone, Copy, Debug, PartialEq, Eq)]
pub enum SaveFault {
    /// The store failed, which its count of failed saves shows. The file is as it was, or has some of
    /// the first bytes.
    Failed,
    /// Memory ran out, and nothing changed.
    OutOfMemory,
}

impl From<OutOfMemory> for SaveFault {
    ghost use Rattle.gm_host.specs.declared.fault.SaveFault.TheVariants as saves;

    ghost from_gives = { λ _ fault. fault ≡ saves.OutOfMemory };

    fn from(_error: OutOfMemory) -> SaveFault {
        SaveFault::OutOfMemory
    }
}

impl From<io::Error> for SaveFault {
    ghost use Rattle.gm_host.specs.declared.fault.SaveFault.TheVariants as saves;

    ghost from_gives = { λ _ fault. fault ≡ saves.Failed };

    fn from(_error: io::Error) -> SaveFault {
        SaveFault::Failed
    }
}

/// Why a put did not append all bytes.
#[derive(Clone, Copy, Debug, PartialEq, Eq)]
pub enum PutFault {
    /// The sink failed, which its count of faults shows. Some of the first bytes may have been
    /// appended.
    Failed,
    /// Memory ran out, and nothing was appended.
    OutOfMemory,
}

impl From<AllocError> for PutFault {
    ghost use Rattle.gm_host.specs.declared.fault.PutFault.TheVariants.{OutOfMemory};

    ghost from_gives = { λ _ fault. fault ≡ OutOfMemory };

    fn from(_error: AllocError) -> PutFault {
        PutFault::OutOfMemory
    }
}
