//! Laws of logs and snapshots. Each is a function with an empty body.
ghost use Rattle.std.specs.Prelude.{◌≡◌, ◌≢◌, ◌+◌, ◌<◌, ◌≤◌, ◌^◌, ℕ, suc, List, [], ◌∷◌, ◌++◌, false, true, not};
ghost use Rattle.std.specs.Prelude.{length, take, Some, None, IfSome};
ghost use Rattle.std.specs.List.{AllByRecursion};
ghost use Rattle.xs_bytes.specs.SortedMap.{empty};
ghost use Rattle.xs_resp.specs.declared.reply.Reply.{Reply};
ghost use Rattle.xs_command.specs.declared.command.Command.{Command};
ghost use Rattle.xs_command.specs.WellFormed.{IsWellFormed};
ghost use Rattle.xs_keys.specs.Event.{Event, History, event_command};
ghost use Rattle.xs_keys.specs.Content.{Content};
ghost use Rattle.xs_keys.specs.Step.{Step};
ghost use Rattle.xs_keys.specs.Headline.{Headline, RunsOn};
ghost use Rattle.xs_tape.specs.Crash.{before_zero, CrashLeaves};
ghost use Rattle.xs_tape.specs.Records.{CanBeSpelled, spellings};
ghost use Rattle.xs_replay.specs.After.{after, contents_after, moment_after, model_replies, state_after, new_server};
ghost use Rattle.xs_replay.specs.After.{ServerState};
ghost use Rattle.xs_replay.specs.Calls.{Call, KeepsTheRule, Serves, events_of, answers_of, log_of, survivors};
ghost use Rattle.xs_replay.specs.Calls.{ServerLife, Lives, survivors_of, is_left_out};
ghost use Rattle.xs_replay.specs.Log.{IsLog, HasEvents};
ghost use Rattle.xs_replay.specs.Pieces.{Piece, content_of, pieces_of};
ghost use Rattle.xs_replay.specs.Folder.{Folder, recovered, left_by, events_up_to, HasServed, put};
ghost use Rattle.xs_replay.specs.SnapshotWords.{words_of_piece, Fits};
ghost use Rattle.xs_replay.specs.PieceReading.{piece_of_words};
ghost use Rattle.xs_replay.specs.Snapshot.{IsSnapshotFile};
ghost use Rattle.xs_replay.specs.Ranges.{EventFits};

/// What a crash leaves of a log has a beginning of its events, including all whose records, after the header, were
/// kept.
pub fn a_crash_leaves_the_first_events()
    ensures { (number : ℕ) (requests : List (List (List ℕ))) (events : List Event) (kept : ℕ) (file : List ℕ)
        (found : List Event) (whole part : ℕ) → AllByRecursion CanBeSpelled requests → IsLog number requests events →
        kept ≤ length requests → CrashLeaves (length (spellings (take kept requests))) (spellings requests) file →
        HasEvents number (before_zero file) found whole part →
        (length found ≤ length events) × (found ≡ take (length found) events) × (kept ≤ length found + 1) }
{}

/// The events of a log are a run, with the model's replies.
pub fn a_log_is_a_run()
    ensures { (start : Content) (events : List Event) → AllByRecursion (λ e. IsWellFormed (event_command e)) events →
        RunsOn start events (model_replies start events) (contents_after start events) }
{}

/// The rule holds for a call that is left out because it only reads or was refused, and for any other that is in the
/// log.
pub fn reads_and_refusals_may_be_left_out()
    ensures { (old : Content) (now : ℕ) (command : Command) (answer : Reply) (new : Content) →
        IsWellFormed command → Step old now command answer new →
        KeepsTheRule (not (is_left_out command answer)) old (now, command) new }
{}

/// A log has the content of all calls that were served.
pub fn a_log_has_the_content()
    ensures { (old new : Content) (calls : List Call) → Serves old calls new →
        new ≡ contents_after old (log_of calls) }
{}

/// If a log keeps the first of its events, the calls before the first lost one survive. They were served with the
/// replies that they got, and their content is that of the events that were kept.
pub fn a_crash_cuts_the_calls()
    ensures served { (old new : Content) (calls : List Call) (kept : ℕ) → Serves old calls new →
        Serves old (survivors kept calls) (contents_after old (take kept (log_of calls))) }
    ensures log { (calls : List Call) (kept : ℕ) → log_of (survivors kept calls) ≡ take kept (log_of calls) }
    // They are the first of the calls, and include each beginning whose events are kept.
    ensures first { (calls : List Call) (kept : ℕ) →
        survivors kept calls ≡ take (length (survivors kept calls)) calls }
    ensures all { (calls others : List Call) (kept : ℕ) → length (log_of calls) ≤ kept →
        (more : List Call) × (survivors kept (calls ++ others) ≡ calls ++ more) }
{}

/// A step of a well-formed command is a run.
pub fn a_step_is_a_run()
    ensures { (old new : Content) (now : ℕ) (command : Command) (answer : Reply) →
        IsWellFormed command → Step old now command answer new →
        RunsOn old ((now, command) ∷ []) (answer ∷ []) new }
{}

/// Runs, one after the other, are one run.
pub fn runs_are_joined()
    ensures { (first between last : Content) (events more : List Event) (answers others : List Reply) →
        RunsOn first events answers between → RunsOn between more others last →
        RunsOn first (events ++ more) (answers ++ others) last }
{}

/// Calls that were served are a run.
pub fn calls_are_a_run()
    ensures { (old new : Content) (calls : List Call) → Serves old calls new →
        RunsOn old (events_of calls) (answers_of calls) new }
{}

/// The lives of a server over one log are one history: the calls that survived, of all lives in their order, are one
/// run, and the headline holds for the whole run.
pub fn lives_are_one_history()
    ensures run { (old new : Content) (lives : List ServerLife) → Lives old lives new →
        RunsOn old (events_of (survivors_of lives)) (answers_of (survivors_of lives)) new }
    ensures headline { (lives : List ServerLife) (new : Content) → Lives empty lives new →
        (history : History)
        × Headline [] (events_of (survivors_of lives)) (answers_of (survivors_of lives)) history }
{}

/// The pieces of a content determine it exactly: different contents have different pieces.
pub fn a_snapshot_says_its_content()
    ensures { (content : Content) → content_of (pieces_of content) ≡ content }
{}

/// A start reads the greatest snapshot of a folder and the logs from its number on, and finds what all events left.
/// This stays true while events are appended and logs begun, whatever snapshot is put by a follower that has read the
/// closed logs, in whatever order files below it are removed, and if a crash takes events from the end of the last log.
pub fn the_greatest_snapshot_wins()
    // The same is true of a follower that reads the logs up to an earlier one.
    ensures recovers { (folder : Folder) (served : ℕ → List Event) (last n : ℕ) (is : HasServed folder served last) →
        is.below < n → n ≤ last → recovered folder n ≡ Some (left_by served n) }
    ensures leaves { (served : ℕ → List Event) (n : ℕ) →
        left_by served n ≡ state_after new_server (events_up_to served n) }
    // What is found is the content of a run of all events, including those that no file has any more.
    ensures runs { (folder : Folder) (served : ℕ → List Event) (last : ℕ) (state : ServerState) →
        AllByRecursion (λ e. IsWellFormed (event_command e)) (events_up_to served last) →
        HasServed folder served last → recovered folder last ≡ Some state →
        RunsOn empty (events_up_to served last) (model_replies empty (events_up_to served last)) state.content }
    ensures first { HasServed (record { snapshots = λ n. None; logs = put 1 (Some []) (λ n. None) }) (λ n. []) 1 }
    ensures appends { (folder : Folder) (served : ℕ → List Event) (last : ℕ) (event : Event) →
        HasServed folder served last →
        HasServed (record folder { logs = put last (Some (served last ++ event ∷ [])) folder.logs })
        (put last (served last ++ event ∷ []) served) last }
    ensures crash { (folder : Folder) (served : ℕ → List Event) (last left : ℕ) → HasServed folder served last →
        HasServed (record folder { logs = put last (Some (take left (served last))) folder.logs })
        (put last (take left (served last)) served) last }
    ensures begins { (folder : Folder) (served : ℕ → List Event) (last : ℕ) → HasServed folder served last →
        HasServed (record folder { logs = put (suc last) (Some []) folder.logs })
        (put (suc last) [] served) (suc last) }
    // A snapshot gets the number of the log after those that were read.
    ensures puts { (folder : Folder) (served : ℕ → List Event) (last n : ℕ) (state : ServerState)
        (is : HasServed folder served last) → is.below < n → n < last → recovered folder n ≡ Some state →
        HasServed (record folder { snapshots = put (suc n) (Some state) folder.snapshots }) served last }
    ensures removes_snapshot { (folder : Folder) (served : ℕ → List Event) (last n : ℕ)
        (is : HasServed folder served last) → n ≤ is.below →
        HasServed (record folder { snapshots = put n None folder.snapshots }) served last }
    ensures removes_log { (folder : Folder) (served : ℕ → List Event) (last n : ℕ)
        (is : HasServed folder served last) → n ≤ is.below →
        HasServed (record folder { logs = put n None folder.logs }) served last }
{}

/// The words of a piece read as that piece, and no other words do.
pub fn a_piece_is_spelled_in_one_way()
    ensures said { (piece : Piece) → Fits piece → piece_of_words (words_of_piece piece) ≡ Some piece }
    ensures only { (words : List (List ℕ)) (piece : Piece) → piece_of_words words ≡ Some piece →
        (words ≡ words_of_piece piece) × Fits piece }
{}

/// The bytes of a snapshot determine its state and the number of the log that continues it. If they are cut, or
/// anything follows them, they aren't a snapshot.
pub fn a_snapshot_is_whole()
    ensures only { (number other : ℕ) (bytes : List ℕ) (state found : ServerState) →
        IsSnapshotFile number bytes state → IsSnapshotFile other bytes found → (number ≡ other) × (state ≡ found) }
    ensures whole { (number other : ℕ) (bytes more : List ℕ) (state found : ServerState) → more ≢ [] →
        IsSnapshotFile number bytes state → IsSnapshotFile other (bytes ++ more) found → ⊥ }
    // A crash leaves all of a snapshot, or none of it.
    ensures crash { (number other kept : ℕ) (bytes file : List ℕ) (state found : ServerState) →
        IsSnapshotFile number bytes state → CrashLeaves kept bytes file → IsSnapshotFile other file found →
        file ≡ bytes }
{}

/// After events whose numbers are in range, the numbers of the content are in range.
pub fn what_events_leave_can_be_written()
    ensures pieces { (events : List Event) → AllByRecursion EventFits events →
        AllByRecursion Fits (pieces_of (contents_after empty events)) }
    ensures moment { (events : List Event) → AllByRecursion EventFits events →
        IfSome (moment_after None events) (λ moment. moment < 2 ^ 63) }
{}
