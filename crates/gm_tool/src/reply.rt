//! What a command answers: a text within the limit, and a status.

ghost use Rattle.std.specs.Prelude.{◌≡◌};
ghost use Rattle.gm_tool.specs.inner.Replies.{IsWithinLimit};
ghost use Rattle.gm_tool.specs.inner.Stops.{reply_of};

use crate::refusal::{NoText, Refusal, Stop};

/// The most bytes of a file that is read or of a text that is printed.
pub const MOST_BYTES: usize = 268_435_456;

/// A text to print, with the status of the program where that goes well.
#[derive(Drop)]
pub struct Reply {
    pub status: u8,
    pub text: Vec<u8>,
}

/// The reply with this text, unless it is too long.
pub fn reply_within_limit(status: u8, text: Vec<u8>) -> Result<Reply, NoText>
    ensures { IsWithinLimit status text.items result }
{
    if text.len() > MOST_BYTES {
        return Err(NoText::Refused(Refusal::SizeOutput));
    }
    Ok(Reply { status, text })
}

/// What is printed of a stop before anything is saved.
pub fn stopped(stop: Stop) -> Result<Reply, NoText>
    ensures { result ≡ reply_of stop }
{
    match stop {
        Stop::Bad(text) => Ok(Reply { status: 4, text }),
        Stop::NoText(none) => Err(none),
    }
}
