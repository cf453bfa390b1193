//! Laws of the model. Each is true of every history, so of every part of one from its beginning on, and of lives that
//! have ended.
ghost use Rattle.std.specs.Prelude.{◌≡◌, ◌⊎◌, ℕ, false, true, List, [], ◌∷◌, ◌++◌, None, Some, length};
ghost use Rattle.std.specs.Option.{option_map};
ghost use Rattle.xs_bytes.specs.SortedMap as map;
ghost use Rattle.xs_stream.specs.declared.id.Id.{Id};
ghost use Rattle.xs_stream.specs.Id.{has_id, is_below};
ghost use Rattle.xs_stream.specs.StreamContent.{Ascends, AllAbove, ids_of};
ghost use Rattle.xs_group.specs.GroupState.{is_same_name};
ghost use Rattle.xs_command.specs.declared.command.Command.{Command};
ghost use Rattle.xs_command.specs.WellFormed.{IsWellFormed};
ghost use Rattle.xs_keys.specs.Life.{StreamEvent, key_life, added_in, present_entries};
ghost use Rattle.xs_keys.specs.GroupEvent.{delivered_ids, cursor, pending_row_at};
ghost use Rattle.xs_keys.specs.Owner.{owner};
ghost use Rattle.xs_keys.specs.GroupLife.{GroupLife, group_life, read_group_of, present_in, reads_new_entries};
ghost use Rattle.xs_keys.specs.GroupLife.{ids_delivered_by, LifeContinues};
ghost use Rattle.xs_keys.specs.Content.{Content, IsContent};
ghost use Rattle.xs_keys.specs.ContentAfter.{content_after};
ghost use Rattle.xs_keys.specs.ConsistentContent.{IsConsistentContent};
ghost use Rattle.xs_keys.specs.Reply.{reply};
ghost use Rattle.xs_keys.specs.Step.{IsUnchangedIfRefused};
ghost use Rattle.xs_keys.specs.RepliesTell.{IsReported};
ghost use Rattle.xs_keys.specs.ClaimsTake.{ClaimsAreExact};
ghost use Rattle.xs_keys.specs.TimesAndCounts.{AreOfLastTouch};
ghost use Rattle.xs_keys.specs.JobPlace.{Place, HasOnePlace, place_after};
ghost use Rattle.xs_keys.specs.JobMove.{MovesAlong, is_final, NoneEndsGroup};
ghost use Rattle.xs_keys.specs.PlacesAddUp.{is_pending, jobs_at, PlacesAddUp, TellsPending};
ghost use Rattle.xs_keys.specs.Presence.{EntriesAreAdded, EntriesStay, GroupsAreCreated, GroupsStay};
ghost use Rattle.xs_keys.specs.EachDelivery.{HadItsTurn, DeliversInFull};
ghost use Rattle.xs_keys.specs.EachOwner.{OwnedUntilSettled, ChangesByClaims};
ghost use Rattle.xs_keys.specs.EachOwner.{IsPendingWithOwner};
ghost use Rattle.xs_keys.specs.Headline.{OfEachLife};
ghost use Rattle.xs_keys.specs.Event.{Bytes, Event, History};

/// The empty history has the empty content; an event leads from the content of a history to the content of the history
/// followed by it; a history has only one content; and that is consistent.
pub fn step_law()
    ensures empty { IsContent map.empty [] }
    ensures step { (past : History) (content : Content) (now : ℕ) (command : Command) →
        IsContent content past → IsContent (content_after content now command) ((now, command) ∷ past) }
    ensures unique { (past : History) (one other : Content) →
        IsContent one past → IsContent other past → one ≡ other }
    ensures consistent { (past : History) (content : Content) →
        IsContent content past → IsConsistentContent content }
{}

/// What is refused changes nothing: if the reply to a command is an error, the content is unchanged.
pub fn what_is_refused_changes_nothing()
    ensures { (content : Content) (now : ℕ) (command : Command) → IsWellFormed command →
        IsUnchangedIfRefused content now command }
{}

/// The ids added in the life of a key ascend.
pub fn ids_ascend()
    ensures { (past : History) (name : Bytes) (changes : List StreamEvent) → key_life past name ≡ Some changes →
        Ascends (ids_of (added_in changes)) }
{}

/// The ids delivered in the life of a group ascend over all its reads, and are above its start.
pub fn deliveries_ascend()
    ensures ascend { OfEachLife (λ life. Ascends (delivered_ids life.start life.events)) }
    ensures past_start { OfEachLife (λ life. AllAbove life.start (delivered_ids life.start life.events)) }
{}

/// An id above the start and not above the cursor has had its turn, and was delivered exactly if it was in the stream
/// then.
pub fn delivered_exactly_if_present_at_its_turn()
    ensures { OfEachLife (λ life. (x : Id) →
        is_below life.start x ≡ true → is_below (cursor life.start life.events) x ≡ false
        → HadItsTurn life.start life.events x) }
{}

/// A read of new entries delivers as many as it asks for, or leaves no entry in the stream above the cursor.
pub fn a_read_delivers_in_full()
    ensures { OfEachLife (λ life. DeliversInFull life.start life.events) }
{}

/// After a delivery without NOACK an entry has an owner up to the first event that settles it, and none
/// after it; the owner changes only by a claim, and comes only by a delivery.
pub fn one_owner_until_settled()
    ensures until_settled { OfEachLife (λ life. OwnedUntilSettled life.start life.events) }
    ensures by_claims { OfEachLife (λ life. ChangesByClaims life.start life.events) }
{}

/// An event delivers nothing of a life of a group if it is on another key or group, or if no life of the group is open:
/// before its start, or after its end. What is delivered in a life is what its events deliver, one after the other, and
/// nothing else.
pub fn lives_are_apart()
    ensures elsewhere { (past : History) (command : Command) (key group : Bytes) →
        (is_same_name group (read_group_of command) ≡ false) ⊎ (reads_new_entries command key ≡ false)
        → ids_delivered_by past command key group ≡ [] }
    ensures outside { (past : History) (command : Command) (key group : Bytes) →
        group_life past key group ≡ None → ids_delivered_by past command key group ≡ [] }
    ensures goes_on { (past : History) (now : ℕ) (command : Command) (key group : Bytes) →
        IsWellFormed command →
        let new = ids_delivered_by past command key group in
        LifeContinues (group_life past key group) new (group_life ((now, command) ∷ past) key group) }
{}

/// An accepted read with `>` reports to its consumer the entries that the event delivers in the group, and an accepted
/// claim those that it takes, each with the fields with which it was added (only ids under JUSTID).
pub fn what_is_reported_is_what_was_delivered()
    ensures { (past : History) (content : Content) (now : ℕ) (command : Command) →
        IsContent content past → IsWellFormed command → IsReported past now command (reply content now command) }
{}

/// The owner, found by looking back for the last event that assigned the entry and for a later one that settled it, is
/// the consumer of the row that the proofs use.
pub fn owner_is_of_the_row()
    ensures pending_row_at { OfEachLife (λ life. (x : Id) →
        owner life.start life.events x ≡ option_map (λ row. row.consumer) (pending_row_at life.start life.events x)) }
    ensures pending { OfEachLife (λ life. IsPendingWithOwner life.start life.events) }
{}

/// The time and the delivery count of a pending row, carried from event to event, are those of the last event that
/// touched the entry: that delivered it, claimed it, or showed it once more to its consumer.
pub fn time_and_count_are_of_the_last_touch()
    ensures { OfEachLife (λ life. AreOfLastTouch life.start life.events) }
{}

/// A claim takes an entry only if it has an owner, is in the stream, and the time that it was last given is as far back
/// as the claim requires; and it removes a pending entry only if that is no longer in the stream. Of the entries that
/// may be taken so, an XCLAIM takes each that it names, and an XAUTOCLAIM each from its start on, until it has COUNT
/// hits or 10 x COUNT ids.
pub fn a_claim_takes_what_is_idle()
    ensures { OfEachLife (λ life. ClaimsAreExact life.start life.events) }
{}

/// The life of a job. Entries come only by XADD, and leave their stream by a deletion, a trim or with their key; a
/// group comes only by its XGROUP CREATE, which sets its start, and stays open until it is destroyed or its key is
/// deleted. Each entry that was added has one place in each group of its stream, and no other: it is not the group's,
/// waits, was dropped before its turn, was handed out with NOACK, is pending with one consumer, or is settled. Each
/// event leaves it there, or moves it along an arrow: what waits is read or dropped; what is pending moves to another
/// consumer only by a claim, and is settled by an acknowledgement, the removal of its consumer, or a claim that finds
/// it deleted. What was dropped, handed out or settled stays so for the life of the group. So none is lost, doubled or
/// without an owner: what waits, what was dropped or handed out, the rows that XPENDING shows and what is settled are
/// all that was added above the start.
pub fn the_life_of_a_job()
    ensures one_place { (past : History) (key group : Bytes) (changes : List StreamEvent) (life : GroupLife) →
        key_life past key ≡ Some changes → group_life past key group ≡ Some life →
        (x : Id) → has_id (ids_of (added_in changes)) x ≡ true → HasOnePlace life (ids_of (present_entries changes)) x }
    ensures goes_along { (past : History) (now : ℕ) (command : Command) (key group : Bytes) (x : Id) →
        IsWellFormed command →
        MovesAlong command key group (present_in (key_life past key)) x (place_after past key group x)
        (place_after ((now, command) ∷ past) key group x) }
    ensures additions { (earlier : History) (e : Event) → EntriesAreAdded earlier e }
    ensures presence { (earlier : History) (e : Event) → EntriesStay earlier e }
    ensures groups { (earlier : History) (e : Event) → GroupsAreCreated earlier e }
    ensures open_groups { (earlier : History) (e : Event) → GroupsStay earlier e }
    ensures for_good { (later earlier : History) (key group : Bytes) (x : Id) (here : Place) →
        NoneEndsGroup key group later → is_final here ≡ true → place_after earlier key group x ≡ Some here →
        place_after (later ++ earlier) key group x ≡ Some here }
    ensures places_add_up { (past : History) (key group : Bytes) (changes : List StreamEvent) (life : GroupLife) →
        key_life past key ≡ Some changes → group_life past key group ≡ Some life → PlacesAddUp changes life }
    ensures reported { (past : History) (content : Content) (now : ℕ) (key group : Bytes)
        (changes : List StreamEvent) (life : GroupLife) → IsContent content past → key_life past key ≡ Some changes →
        group_life past key group ≡ Some life →
        TellsPending content now key group (length (jobs_at is_pending changes life)) }
{}
