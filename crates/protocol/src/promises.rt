// The statements over all runs, each on the contract of a function, so that the check asks for its proof.
ghost use Rattle.protocol.specs.Law.{Law, RoundsLaw, StepsGoOn, ListsGoOn, RefusalsAlterNothing};
ghost use Rattle.protocol.specs.Cases.{Cases};

// A closed ledger keeps its word, after every list of steps.
pub fn closed_ledger_keeps_its_word()
    ensures { Law }
{}

// A recovery goes by its rounds, after every list of steps.
pub fn recoveries_go_by_rounds()
    ensures { RoundsLaw }
{}

// Whatever led to a cluster, a step goes on from there, and both laws hold after it.
pub fn steps_go_on()
    ensures { StepsGoOn }
{}

// And so do any steps, one after the other.
pub fn lists_go_on()
    ensures { ListsGoOn }
{}

// A step that is refused leaves the cluster as it was.
pub fn refusals_alter_nothing()
    ensures { RefusalsAlterNothing }
{}

// The checked cases come out as they should.
pub fn cases_hold()
    ensures { Cases }
{}
