//! Laws of accepted scripts.

ghost use Rattle.bm_check.specs.Values.{AcceptedIsSafe, StatesAreRight};
ghost use Rattle.bm_check.specs.Worked.{WorkedStatements};
ghost use Rattle.bm_check.specs.WorkedReferences.{WorkedReferences};

/// Along an accepted script, whatever the replies, each statement finds what it needs, and at the end no name owns and
/// no lock is held. `SafeBlock` says so by recursion on blocks, with what holds at the end as its last argument. So a
/// machine that runs a script keeps it of what is left to run.
pub fn accepted_scripts_are_safe()
    ensures { AcceptedIsSafe }
{}

/// A statement that the judgement lets pass, begun with values that are what the names' states say, finds what it
/// needs, whatever the replies, and leaves values that are what the states after it say.
pub fn states_are_right()
    ensures { StatesAreRight }
{}

/// The judgement on a few statements, computed.
pub fn worked_statements()
    ensures { WorkedStatements }
{}

/// How long a non-owning reference stands, computed: under the lock, up to its unlock, and to a pop or a removal.
pub fn worked_references()
    ensures { WorkedReferences }
{}
