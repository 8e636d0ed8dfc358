//! Why a command isn't done, with the line and the status that say so.

ghost use Rattle.std.specs.Prelude.{◌≡◌};
ghost use Rattle.gm_tool.specs.inner.Refusals.{status_of, line_of};

use gm_model::OutOfMemory;
use std::alloc::{AllocError, AllocFailed};

/// What a file is for.
#[derive(Clone, Copy)]
pub enum Role {
    Map,
    Book,
    Script,
}

/// Why a command isn't done, where its line needs no memory.
#[derive(Clone, Copy)]
pub enum Refusal {
    /// The words are no command with its number of words.
    Usage,
    /// The file can't be loaded.
    Load(Role),
    /// The file is longer than the limit.
    Size(Role),
    /// The text to print or to save is longer than the limit.
    SizeOutput,
    /// The map and the book are not of one dimension with the same embeddings.
    Agree,
    /// The map can't be saved.
    Save,
}

impl Refusal {
    /// The status of the program.
    pub fn status(self) -> u8
        ensures { result ≡ status_of self }
    {
        match self {
            Refusal::Usage => 2,
            Refusal::Load(_) => 3,
            Refusal::Agree => 4,
            Refusal::Save => 5,
            Refusal::Size(_) | Refusal::SizeOutput => 8,
        }
    }

    /// The line that is printed, with its line end.
    pub fn line(self) -> &'static [u8]
        ensures { result.now ≡ line_of self }
    {
        match self {
            Refusal::Usage => b"refused usage\n",
            Refusal::Load(Role::Map) => b"refused load MAP\n",
            Refusal::Load(Role::Book) => b"refused load BOOK\n",
            Refusal::Load(Role::Script) => b"refused load SCRIPT\n",
            Refusal::Size(Role::Map) => b"refused size MAP\n",
            Refusal::Size(Role::Book) => b"refused size BOOK\n",
            Refusal::Size(Role::Script) => b"refused size SCRIPT\n",
            Refusal::SizeOutput => b"refused size output\n",
            Refusal::Agree => b"refused agree\n",
            Refusal::Save => b"refused save OUT\n",
        }
    }
}

/// Why there is no text to print, of those that take memory.
#[derive(Clone, Copy)]
pub enum NoText {
    /// Memory ran out, so nothing is printed.
    OutOfMemory,
    /// The command is refused, and its line is printed.
    Refused(Refusal),
}

impl From<OutOfMemory> for NoText {
    ghost use Rattle.gm_tool.specs.declared.refusal.NoText.TheVariants as nothing;

    ghost from_gives = { λ _ none. none ≡ nothing.OutOfMemory };

    fn from(_error: OutOfMemory) -> NoText {
        NoText::OutOfMemory
    }
}

/// Why a run stops before anything is saved.
#[derive(Drop)]
pub enum Stop {
    /// The text of a file can't be run. This line says so, with status 4.
    Bad(Vec<u8>),
    NoText(NoText),
}

impl Stop {
    ghost use Rattle.gm_tool.specs.inner.Stops.{IsStopWith};

    /// The stop with the line of a text that can't be run, where there was memory for it.
    pub fn because(line: Result<Vec<u8>, OutOfMemory>) -> Stop
        ensures { IsStopWith line result }
    {
        match line {
            Ok(line) => Stop::Bad(line),
            Err(OutOfMemory) => Stop::NoText(NoText::OutOfMemory),
        }
    }
}

impl From<NoText> for Stop {
    ghost use Rattle.gm_tool.specs.declared.refusal.Stop.TheVariants as stops;

    ghost from_gives = { λ none stop. stop ≡ stops.NoText none };

    fn from(none: NoText) -> Stop {
        Stop::NoText(none)
    }
}

impl From<OutOfMemory> for Stop {
    ghost use Rattle.gm_tool.specs.declared.refusal.NoText.TheVariants as nothing;
    ghost use Rattle.gm_tool.specs.declared.refusal.Stop.TheVariants as stops;

    ghost from_gives = { λ _ stop. stop ≡ stops.NoText nothing.OutOfMemory };

    fn from(_error: OutOfMemory) -> Stop {
        Stop::NoText(NoText::OutOfMemory)
    }
}

impl From<AllocError> for Stop {
    ghost use Rattle.gm_tool.specs.declared.refusal.NoText.TheVariants as nothing;
    ghost use Rattle.gm_tool.specs.declared.refusal.Stop.TheVariants as stops;

    ghost from_gives = { λ _ stop. stop ≡ stops.NoText nothing.OutOfMemory };

    fn from(_error: AllocError) -> Stop {
        Stop::NoText(NoText::OutOfMemory)
    }
}

impl<T: Drop> From<AllocFailed<T>> for Stop {
    ghost use Rattle.gm_tool.specs.declared.refusal.NoText.TheVariants as nothing;
    ghost use Rattle.gm_tool.specs.declared.refusal.Stop.TheVariants as stops;

    ghost from_gives = { λ _ stop. stop ≡ stops.NoText nothing.OutOfMemory };

    fn from(_error: AllocFailed<T>) -> Stop {
        Stop::NoText(NoText::OutOfMemory)
    }
}
