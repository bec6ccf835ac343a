//! The laws of the semantics. Each function does nothing: its contract is a law of specs/Laws.antt, which the check proves.

ghost use Rattle.qea.specs.Laws.{LateSlice, LateConfigurations, MovesInSlice, GoesOnFromEarlier, EarlierKeepsOwn};
ghost use Rattle.qea.specs.Laws.{DomainsGrow, DomainsApart, BindingsListed, BindingsNumbered};
ghost use Rattle.qea.specs.Laws.{VerdictDecides, EndingsDecide, RejectsLasts, AcceptsLasts, ForGoodLasts, WithoutQuantifiers};
ghost use Rattle.qea.specs.Laws.{RefusalConditions, GrantedBounded, AlwaysGranted, CallsInTurn, NoTrace};
ghost use Rattle.qea.specs.Laws.{BeginsAtStart, OneEventMore};

// A binding with values that its domains still lack has lived as the one that gives nothing there.
pub fn late_bindings_have_lived()
    ensures slice { LateSlice }
    ensures configurations { LateConfigurations }
{}

// A binding moves at the events of its slice only, from the list of the binding without its new values.
pub fn bindings_move_in_their_slices()
    ensures moves { MovesInSlice }
    ensures earlier { GoesOnFromEarlier }
    ensures own { EarlierKeepsOwn }
{}

// Domains only grow, and hold no value twice.
pub fn domains_only_grow()
    ensures grow { DomainsGrow }
    ensures apart { DomainsApart }
{}

// The listing of the bindings is complete and in the order of their numbers.
pub fn bindings_have_numbers()
    ensures listed { BindingsListed }
    ensures numbered { BindingsNumbered }
{}

// The tests decide the statements.
pub fn verdicts_are_decided()
    ensures accepted { VerdictDecides }
    ensures endings { EndingsDecide }
{}

// What is for good is the verdict of every longer granted list.
pub fn for_good_lasts()
    ensures rejects { RejectsLasts }
    ensures accepts { AcceptsLasts }
    ensures whole { ForGoodLasts }
    ensures without { WithoutQuantifiers }
{}

// A refusal has the number of the first condition that applies, and what is granted keeps the limits.
pub fn refusals_have_conditions()
    ensures conditions { RefusalConditions }
    ensures bounded { GrantedBounded }
{}

// What is granted in turn is granted, and a refused event leaves no trace.
pub fn refusals_leave_no_trace()
    ensures granted { AlwaysGranted }
    ensures turn { CallsInTurn }
    ensures trace { NoTrace }
{}

// Domains and map alone, an event at a time, come to what all events define.
pub fn one_event_more_agrees()
    ensures begins { BeginsAtStart }
    ensures agrees { OneEventMore }
{}
