//! The numbers of the program's events are in range, as their types ensure. Each function has an empty body or only
//! calls others.
ghost use Rattle.xs_replay.specs.Ranges.{AddIdFits, StartFits, RuleFits, EventFits};

use xs_command::{Command, GroupStart};
use xs_group::ClaimRule;
use xs_stream::{AddId, Moment};

/// The id of an addition.
fn add_id_fits(id: AddId)
    ensures { AddIdFits id }
{
    match id {
        AddId::Auto => {}
        AddId::AutoSeq(_ms) => {}
        AddId::Exact(_id) => {}
    }
}

/// The id after which a group starts.
fn start_fits(start: GroupStart)
    ensures { StartFits start }
{
    match start {
        GroupStart::Top => {}
        GroupStart::At(_id) => {}
    }
}

/// The count that a claim sets.
fn rule_fits(rule: ClaimRule)
    ensures { RuleFits rule }
{
    if let Some(count) = rule.retry {
        let _count = count.get();
    }
}

/// A command at a moment: the content after such events can be written.
pub fn an_event_fits(now: Moment, command: &Command)
    ensures { EventFits (now, command.now) }
{
    let _now = now.get();
    match command {
        Command::Add(add) => add_id_fits(add.id),
        Command::GroupCreate(create) => start_fits(create.start),
        Command::Claim(claim) => rule_fits(claim.rule),
        Command::AutoClaim(claim) => rule_fits(claim.rule),
        _ => {}
    }
}
