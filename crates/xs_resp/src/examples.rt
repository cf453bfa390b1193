//! Examples of the definitions, with expected values from outside.
#![tactic(auto, unfolding(crate::proofs::Computing::example_functions))]

ghost use Rattle.xs_resp.specs.Examples.{Replies, FaultTexts, Wholeness};
ghost use Rattle.xs_resp.specs.ExamplesRequests.{Requests, Undecided, Faults, Reader};
ghost use Rattle.xs_resp.specs.ExamplesSpelling.{Spellings, Spelled, FaultKinds, Pieces, Stays};

/// The texts of replies.
pub fn replies()
    ensures { Replies }
{}

/// The texts of errors.
pub fn fault_texts()
    ensures { FaultTexts }
{}

/// Which tokens are complete items.
pub fn wholeness()
    ensures { Wholeness }
{}

/// Bytes that are a request.
pub fn requests()
    ensures { Requests }
{}

/// Bytes that decide nothing yet.
pub fn undecided()
    ensures { Undecided }
{}

/// Bytes that aren't a request.
pub fn faults()
    ensures { Faults }
{}

/// What a reader holds and returns.
pub fn reader()
    ensures { Reader }
{}

/// Requests as they are sent.
pub fn spellings()
    ensures { Spellings }
{}

/// Bytes that spell requests.
pub fn spelled()
    ensures { Spelled }
{}

/// Faults in bytes.
pub fn fault_kinds()
    ensures { FaultKinds }
{}

/// Requests in pieces.
pub fn pieces()
    ensures { Pieces }
{}

/// What is decided stays decided.
pub fn stays()
    ensures { Stays }
{}
