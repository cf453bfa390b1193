//! XCLAIM.
ghost use Rattle.std.specs.Prelude.{◌≡◌, IfOk, OnOk, OnErr};
ghost use Rattle.xs_stream.specs.StreamContent.{ids_of};
ghost use Rattle.xs_group.specs.Claims as claims;
ghost use Rattle.xs_keys.specs.GroupAsk.{claim};
ghost use Rattle.xs_keys.specs.ContentAfter.{group_after};
ghost use Rattle.xs_keys.specs.ReplyParts.{taken_reply};
ghost use Rattle.xs_keys.specs.Step.{Attempt};

use crate::group_change::change_group;
use crate::keys::Keys;
use crate::showing::push_taken;
use std::alloc::{AllocError, Global};
use xs_command::{ClaimCommand, Command};
use xs_group::Group;
use xs_resp::{Fault, Replies, Reply, Tokens};
use xs_stream::{Id, Moment, Stream};

/// The entries that a claim took, or only their ids.
fn taken_shown(
    alloc: Global,
    stream: &Stream,
    just_id: bool,
    ids: &[Id],
) -> Result<Reply, AllocError>
    ensures { IfOk result (λ reply. reply ≡ taken_reply just_id stream.now.entries ids.now) }
{
    let mut tokens = Tokens::new(alloc);
    push_taken(&mut tokens, alloc, stream, just_id, ids)?;
    Ok(Reply::Array(Replies::new(ids.len(), tokens)))
}

/// Claims entries of a group. The reply is made before the claim is carried out, so the group is unchanged if memory
/// runs out.
fn claim_in(
    group: &mut Group,
    alloc: Global,
    stream: &Stream,
    now: Moment,
    command: &ClaimCommand,
) -> Result<Reply, AllocError>
    ensures answer { let present = ids_of stream.now.entries in
        let found = claims.claim_by_ids group.old.rows.entries present now command.now.rule command.now.ids in
        IfOk result (λ reply. reply ≡ taken_reply command.now.rule.just_id stream.now.entries found.take) }
    ensures ok { let asked = claim command.now.consumer command.now.rule command.now.ids in
        OnOk result (group.new ≡ group_after now (ids_of stream.now.entries) asked group.old) }
    ensures err { OnErr result (group.new ≡ group.old) }
{
    let rule = command.rule;
    let found = group.find_claim(alloc, stream, now, &rule, command.ids.as_slice())?;
    let reply = taken_shown(alloc, stream, rule.just_id, found.take.as_slice())?;
    group.settle(alloc, &command.consumer, now, &rule, &found)?;
    Ok(reply)
}

/// Claims entries of a group by their ids.
pub fn claim(
    keys: &mut Keys,
    alloc: Global,
    now: Moment,
    command: &ClaimCommand,
) -> Result<Reply, AllocError>
    ensures { Attempt keys.old now (Command.Claim command.now) result keys.new }
{
    let claimed = change_group(keys, &command.key, &command.group, |group, stream| {
        claim_in(group, alloc, stream, now, command)
    });
    match claimed {
        Ok(reply) => reply,
        Err(_) => Ok(Reply::Error(Fault::NoGroup)),
    }
}
