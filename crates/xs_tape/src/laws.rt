//! Laws of the definitions. Each is a function with an empty body.
ghost use Rattle.std.specs.Prelude.{◌≡◌, ◌≤◌, ℕ, List, ◌++◌, length, take};
ghost use Rattle.std.specs.List.{AllByRecursion};
ghost use Rattle.xs_tape.specs.Escape.{escaped};
ghost use Rattle.xs_tape.specs.Crash.{HasNoZero, before_zero, CrashLeaves};
ghost use Rattle.xs_tape.specs.Heads.{HasHead, MayBeCut};
ghost use Rattle.xs_tape.specs.Records.{CanBeSpelled, CanBeLogged, record_words, spellings, AreRequests, AreTheFirst};

/// Different words are escaped differently, and an escaped word has no zero byte.
pub fn escaping_is_exact()
    ensures one { (word other : List ℕ) → escaped word ≡ escaped other → word ≡ other }
    ensures no_zero { (word : List ℕ) → HasNoZero (escaped word) }
{}

/// A log may have each record that RESP can spell.
pub fn records_can_be_logged()
    ensures { (first : List ℕ) (rest : List (List ℕ)) → CanBeSpelled (record_words first rest) →
        CanBeLogged (record_words first rest) }
{}

/// The text of a log has no zero byte.
pub fn logs_have_no_zero()
    ensures { (requests : List (List (List ℕ))) → AllByRecursion CanBeLogged requests →
        HasNoZero (spellings requests) }
{}

/// If the head of a record is followed by as many bytes as its size, nothing was cut, whatever these bytes are.
pub fn whole_records_are_not_cut()
    ensures { (part : List ℕ) (size : ℕ) (behind : List ℕ) → HasHead part size behind → size ≤ length behind →
        32 ≤ length part → MayBeCut part → ⊥ }
{}

/// Of what a crash leaves, the bytes before the first zero were written, and contain all that was kept.
pub fn a_crash_leaves_a_beginning()
    ensures { (kept : ℕ) (written file : List ℕ) → HasNoZero written → CrashLeaves kept written file →
        (more rest : List ℕ) × (before_zero file ≡ take kept written ++ more)
        × (written ≡ before_zero file ++ rest) }
{}

/// What a crash may leave in one state of a tape, it may also leave after more was written, or with less kept.
pub fn a_tape_grows()
    ensures { (kept : ℕ) (written : List ℕ) (fewer : ℕ) (more file : List ℕ) → CrashLeaves kept written file →
        fewer ≤ kept → CrashLeaves fewer (written ++ more) file }
{}

/// The first bytes of requests are the first of the requests, each that is complete, and a part of the next one, or
/// nothing.
pub fn the_first_are_read()
    ensures { (written : List (List (List ℕ))) (bytes more : List ℕ) (requests : List (List (List ℕ)))
        (part : List ℕ) → AllByRecursion CanBeSpelled written → bytes ++ more ≡ spellings written →
        AreRequests bytes requests part → AreTheFirst written bytes requests }
{}
