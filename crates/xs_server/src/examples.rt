//! Examples of the definitions.
#![tactic(auto, unfolding(crate::proofs::Computing::example_functions))]

ghost use Rattle.xs_server.specs.ExamplesReport.{ScriptEnds, WorkEnds, Listening};

/// What is reported at the end of a script.
pub fn script_ends()
    ensures { ScriptEnds }
{}

/// What is reported at the end of work.
pub fn work_ends()
    ensures { WorkEnds }
{}

/// What is reported once the server listens.
pub fn listening()
    ensures { Listening }
{}
