//! Examples of the definitions, with expected values from outside.
#![tactic(auto, unfolding(xs_command::proofs::Computing::example_functions, xs_connection::proofs::Computing::example_functions))]

ghost use Rattle.xs_session.specs.Examples.{Takings, TakenInOrder, Answering, Alone, Open};
ghost use Rattle.xs_session.specs.ExamplesInformation.{Sections, Lines, Informing};
ghost use Rattle.xs_session.specs.ExamplesManners.{Free, Guarded, Transactions};
ghost use Rattle.xs_session.specs.ExamplesPlaces.{Places};
ghost use Rattle.xs_session.specs.ExamplesSessions.{Sessions, NoSessions};
ghost use Rattle.xs_session.specs.ExamplesSteps.{Steps, StepsOfSessions};

/// How one request is taken.
pub fn takings()
    ensures { Takings }
{}

/// How requests are taken, one after the other.
pub fn taken_in_order()
    ensures { TakenInOrder }
{}

/// How requests are taken if no password is required.
pub fn free()
    ensures { Free }
{}

/// How requests are taken if one is required.
pub fn guarded()
    ensures { Guarded }
{}

/// How requests are taken between MULTI and EXEC.
pub fn transactions()
    ensures { Transactions }
{}

/// Which words ask the number of keys.
pub fn sections()
    ensures { Sections }
{}

/// The line of the keyspace.
pub fn lines()
    ensures { Lines }
{}

/// How INFO is taken.
pub fn informing()
    ensures { Informing }
{}

/// What is asked, and the answers as the replies come.
pub fn answering()
    ensures { Answering }
{}

/// Which commands are asked alone.
pub fn alone()
    ensures { Alone }
{}

/// What may be open at once.
pub fn open()
    ensures { Open }
{}

/// Places of answers.
pub fn places()
    ensures { Places }
{}

/// Sessions, by their four lists.
pub fn sessions()
    ensures { Sessions }
{}

/// What no session does.
pub fn no_sessions()
    ensures { NoSessions }
{}

/// What a step may do.
pub fn steps()
    ensures { Steps }
{}

/// What steps of all sessions may do.
pub fn steps_of_sessions()
    ensures { StepsOfSessions }
{}
