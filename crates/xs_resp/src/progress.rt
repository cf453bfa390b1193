//! How far the request at the front of some bytes is read.
ghost use Rattle.std.specs.Prelude.{◌≡◌, ◌<◌, ◌≤◌, IfSome, Ok, None, Some};
ghost use Rattle.xs_resp.specs.Progress.{IsProgressOf, Begins, Goes, Reaches};

use crate::header::{Part, read_header};
use crate::read_fault::ProtocolFault;
use crate::word::{read_word, rest_of};

/// How far a request is read: its header, and some of its words.
#[derive(Clone, Copy, Debug, PartialEq, Eq)]
pub struct Progress {
    /// The index after the words that were read.
    pub at: usize,
    /// How many words are left.
    pub left: usize,
}

/// Reads on as far as the bytes go. None if the header isn't complete.
pub fn read_on(bytes: &[u8], progress: Option<Progress>) -> Result<Option<Progress>, ProtocolFault>
    requires { IfSome progress (IsProgressOf bytes.now) }
    ensures { Reaches bytes.now result }
{
    let begun = match progress {
        Some(progress) => Some(progress),
        None => begin(bytes)?,
    };
    match begun {
        Some(progress) => Ok(Some(advance(bytes, progress)?)),
        None => Ok(None),
    }
}

/// Reads the header of a request.
fn begin(bytes: &[u8]) -> Result<Option<Progress>, ProtocolFault>
    ensures { Begins bytes.now result }
{
    match read_header(Part::Count, bytes)? {
        Some(header) => Ok(Some(Progress {
            at: header.end,
            left: header.number,
        })),
        None => Ok(None),
    }
}

/// Reads words as far as the bytes go.
fn advance(bytes: &[u8], mut progress: Progress) -> Result<Progress, ProtocolFault>
    requires { IsProgressOf bytes.now progress }
    ensures { Goes bytes.now result }
{
    while progress.left > 0 {
        let Some(span) = read_word(rest_of(bytes, progress.at))? else {
            return Ok(progress);
        };
        progress.at += span.end + 2;
        progress.left -= 1;
    }
    Ok(progress)
}
