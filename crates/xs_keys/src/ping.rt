//! PING.
ghost use Rattle.xs_keys.specs.Content.{Content};
ghost use Rattle.xs_keys.specs.Step.{AttemptAtAnyTime};

use std::alloc::{AllocError, Global};
use xs_bytes::Bytes;
use xs_command::Command;
use xs_resp::{Reply, Simple};

/// PONG, or the message that was sent. It doesn't use the keys.
pub fn ping(alloc: Global, message: &Option<Bytes>) -> Result<Reply, AllocError>
    ensures { (content : Content) → AttemptAtAnyTime content (Command.Ping message.now) result content }
{
    let Some(message) = message else {
        return Ok(Reply::Simple(Simple::Pong));
    };
    let message = Bytes::from_slice(alloc, message.as_slice())?;
    Ok(Reply::Bulk(message))
}
