//! Claims: which pending entries move to another consumer, and how they change (Redis, XCLAIM and XAUTOCLAIM).
ghost use Rattle.std.specs.Prelude.{IfOk, OnOk, Some, [], ◌≡◌};
ghost use Rattle.xs_group.specs.Claims.{without_repeats, scan_of};
ghost use Rattle.xs_group.specs.Indexes.{rows_of};
ghost use Rattle.xs_group.specs.Verdict.{hits_of, verdict_of, with_removed, with_taken};
ghost use Rattle.xs_stream.specs.Id.{has_id};
ghost use Rattle.xs_stream.specs.StreamContent.{ids_of};

use crate::id_index::IdIndex;
use crate::pending_entry::PendingEntry;
use crate::reading;
use std::alloc::{AllocError, Global};
use std::collections::BTreeSet;
use std::ops::Bound;
use xs_bytes::{List, U63};
use xs_stream::{Id, Moment, Stream};

/// The time that a claimed entry gets, from which its idle time is counted.
#[derive(Clone, Copy, Debug, PartialEq, Eq)]
pub enum ClaimTime {
    /// The moment of the claim.
    Now,
    /// This many milliseconds before the moment of the claim; 0 if the moment is less.
    Idle(u64),
    /// This moment in milliseconds; that of the claim if this one is after it.
    At(u64),
}

/// Which pending entries are claimed, and how they change.
#[derive(Clone, Copy, Debug, PartialEq, Eq)]
pub struct ClaimRule {
    /// The least idle time in milliseconds of an entry that is claimed.
    pub min_idle: u64,
    /// The time that the entry gets.
    pub when: ClaimTime,
    /// The count of deliveries that it gets. If None, the count rises by one, unless `just_id` is set.
    pub retry: Option<U63>,
    /// Whether the reply has only ids. Then, without `retry`, the count stays.
    pub just_id: bool,
}

/// The moment and the rule of a claim.
#[derive(Drop)]
pub(crate) struct ClaimTerms {
    /// The moment of the claim.
    pub(crate) moment: Moment,
    /// Its rule.
    pub(crate) rule: ClaimRule,
}

/// What a claim takes and removes, each in the order in which it was found.
#[derive(Debug, Drop)]
pub struct Claim {
    /// The entries that get the new consumer.
    pub take: List<Id>,
    /// The pending entries that are no longer in the stream.
    pub removed: List<Id>,
}

/// The result of a scan.
#[derive(Debug, Drop)]
pub struct Scan {
    /// The id at which the next scan goes on; `0-0` at the end.
    pub cursor: Id,
    /// The entries of the scanned part that are claimed or removed.
    pub claim: Claim,
}

/// What a claim does with an id.
#[derive(Clone, Copy, Debug, PartialEq, Eq)]
pub(crate) enum Verdict {
    /// It isn't pending, or isn't idle for long enough.
    Passed,
    /// It gets the new consumer.
    Taken,
    /// It is no longer in the stream, and is removed.
    Removed,
}

impl Verdict {
    /// 1 if a scan claims or removes the id, else 0.
    pub(crate) fn hits(self) -> u64
        ensures { result ≡ hits_of self }
    {
        match self {
            Verdict::Passed => 0,
            Verdict::Taken | Verdict::Removed => 1,
        }
    }
}

/// A claim while it is built.
#[derive(Drop)]
pub(crate) struct Found {
    take: Vec<Id>,
    removed: Vec<Id>,
}

impl Found {
    pub(crate) fn new(alloc: Global) -> Self
        ensures take { result.take.items ≡ [] }
        ensures removed { result.removed.items ≡ [] }
    {
        Self {
            take: Vec::new(alloc),
            removed: Vec::new(alloc),
        }
    }

    /// Adds an id by its verdict.
    pub(crate) fn add(&mut self, verdict: Verdict, id: Id) -> Result<(), AllocError>
        ensures take { OnOk result (self.new.take.items ≡ with_taken verdict self.old.take.items id) }
        ensures removed { OnOk result (self.new.removed.items ≡ with_removed verdict self.old.removed.items id) }
    {
        match verdict {
            Verdict::Passed => Ok(()),
            Verdict::Taken => match self.take.push(id) {
                Ok(()) => Ok(()),
                Err(_) => Err(AllocError),
            },
            Verdict::Removed => match self.removed.push(id) {
                Ok(()) => Ok(()),
                Err(_) => Err(AllocError),
            },
        }
    }

    pub(crate) fn into_claim(self) -> Claim
        ensures { result ≡ record { take = self.take.items; removed = self.removed.items } }
    {
        let Self { take, removed } = self;
        Claim {
            take: List::new(take),
            removed: List::new(removed),
        }
    }
}

/// The verdict on a pending entry.
pub(crate) fn judge(entry: &PendingEntry, stream: &Stream, terms: &ClaimTerms, id: Id) -> Verdict
    ensures { result
        ≡ verdict_of (Some entry.now) (has_id (ids_of stream.now.entries) id) terms.now.moment terms.now.rule }
{
    if !reading::is_present(stream, id) {
        return Verdict::Removed;
    }
    if entry.idle(terms.moment) < terms.rule.min_idle {
        return Verdict::Passed;
    }
    Verdict::Taken
}

/// Each id at its first place.
pub(crate) fn without_repeats(alloc: Global, ids: &[Id]) -> Result<Vec<Id>, AllocError>
    ensures { IfOk result (λ kept. kept.items ≡ without_repeats ids.now) }
{
    let mut seen = BTreeSet::new(alloc);
    let mut kept = Vec::new(alloc);
    for id in ids {
        if seen.insert(*id)? {
            kept.push(*id)?;
        }
    }
    Ok(kept)
}

/// The result of a claim of the rows from a start upwards, until there are enough.
pub(crate) fn scan_rows(
    alloc: Global,
    rows: &IdIndex,
    stream: &Stream,
    terms: &ClaimTerms,
    start: Id,
    limit: u64,
) -> Result<Scan, AllocError>
    ensures { IfOk result (λ scan. scan ≡ scan_of (rows_of rows.now.entries).entries (ids_of stream.now.entries)
        terms.now.moment terms.now.rule start limit) }
{
    let mut found = Found::new(alloc);
    let mut hits = 0u64;
    let mut seen = 0u64;
    let past = rows.range((Bound::Included(start), Bound::Unbounded));
    for (id, entry) in past {
        if hits >= limit || seen / 10 >= limit {
            return Ok(Scan {
                cursor: *id,
                claim: found.into_claim(),
            });
        }
        let verdict = judge(entry, stream, terms, *id);
        hits += verdict.hits();
        seen += 1;
        found.add(verdict, *id)?;
    }
    Ok(Scan {
        cursor: Id::ZERO,
        claim: found.into_claim(),
    })
}
