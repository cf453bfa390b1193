//! XAUTOCLAIM.
ghost use Rattle.std.specs.Prelude.{◌≡◌, IfOk, OnOk, OnErr};
ghost use Rattle.xs_stream.specs.StreamContent.{ids_of};
ghost use Rattle.xs_group.specs.Claims as claims;
ghost use Rattle.xs_keys.specs.GroupAsk.{auto_claim};
ghost use Rattle.xs_keys.specs.ContentAfter.{group_after};
ghost use Rattle.xs_keys.specs.ReplyParts.{scan_reply};
ghost use Rattle.xs_keys.specs.Step.{Attempt};

use crate::group_change::change_group;
use crate::keys::Keys;
use crate::showing::{push_id, push_ids, push_taken};
use std::alloc::{AllocError, Global};
use xs_command::{AutoClaimCommand, Command};
use xs_group::{Group, Scan};
use xs_resp::{Fault, Replies, Reply, Tokens};
use xs_stream::{Moment, Stream};

/// The id where to go on, what was taken, and the ids that were removed.
fn scan_shown(
    alloc: Global,
    stream: &Stream,
    just_id: bool,
    scan: &Scan,
) -> Result<Reply, AllocError>
    ensures { IfOk result (λ reply. reply ≡ scan_reply just_id stream.now.entries scan.now) }
{
    let mut tokens = Tokens::new(alloc);
    push_id(&mut tokens, alloc, scan.cursor)?;
    let taken = scan.claim.take.as_slice();
    tokens.push_array(taken.len())?;
    push_taken(&mut tokens, alloc, stream, just_id, taken)?;
    let removed = scan.claim.removed.as_slice();
    tokens.push_array(removed.len())?;
    push_ids(&mut tokens, alloc, removed)?;
    Ok(Reply::Array(Replies::new(3, tokens)))
}

/// Claims entries of a group from a start upwards. The reply is made before the claim is carried out, so the group is
/// unchanged if memory runs out.
fn claim_in(
    group: &mut Group,
    alloc: Global,
    stream: &Stream,
    now: Moment,
    command: &AutoClaimCommand,
) -> Result<Reply, AllocError>
    ensures answer { let asked = command.now in
        let present = ids_of stream.now.entries in
        let found = claims.scan_of group.old.rows.entries present now asked.rule asked.start asked.limit in
        IfOk result (λ reply. reply ≡ scan_reply command.now.rule.just_id stream.now.entries found) }
    ensures ok { let asked = auto_claim command.now.consumer command.now.rule command.now.start command.now.limit in
        OnOk result (group.new ≡ group_after now (ids_of stream.now.entries) asked group.old) }
    ensures err { OnErr result (group.new ≡ group.old) }
{
    let rule = command.rule;
    let found = group.scan(alloc, stream, now, &rule, command.start, command.limit)?;
    let reply = scan_shown(alloc, stream, rule.just_id, &found)?;
    group.settle(alloc, &command.consumer, now, &rule, &found.claim)?;
    Ok(reply)
}

/// Claims entries of a group from a start upwards.
pub fn claim(
    keys: &mut Keys,
    alloc: Global,
    now: Moment,
    command: &AutoClaimCommand,
) -> Result<Reply, AllocError>
    ensures { Attempt keys.old now (Command.AutoClaim command.now) result keys.new }
{
    let claimed = change_group(keys, &command.key, &command.group, |group, stream| {
        claim_in(group, alloc, stream, now, command)
    });
    match claimed {
        Ok(reply) => reply,
        Err(_) => Ok(Reply::Error(Fault::NoGroup)),
    }
}
