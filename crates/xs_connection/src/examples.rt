//! Examples of the definitions, with expected values from outside.
#![tactic(auto, unfolding(crate::proofs::Computing::example_functions))]

ghost use Rattle.xs_connection.specs.Examples.{Telling, Lists, Standings, Strangers, Transactions, Unknowns};

/// What is reported, and what is accepted.
pub fn telling()
    ensures { Telling }
{}

/// A connection in CLIENT LIST.
pub fn lists()
    ensures { Lists }
{}

/// What a connection states about itself.
pub fn standings()
    ensures { Standings }
{}

/// Replies before the password is given.
pub fn strangers()
    ensures { Strangers }
{}

/// Replies between MULTI and EXEC.
pub fn transactions()
    ensures { Transactions }
{}

/// Unknown commands by their names.
pub fn unknowns()
    ensures { Unknowns }
{}
