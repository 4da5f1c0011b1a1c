//! Laws of the facts. Each function is empty: what it ensures is the law.

ghost use Rattle.pay_facts.specs.DecisionLaws.{DecisionsReadRaws};
ghost use Rattle.pay_facts.specs.Examples.{Examples};
ghost use Rattle.pay_facts.specs.FactLaws.{RangesAreSound, DecisionsAreSound, FactsHoldAfter, FactsHoldInEveryRun, StartHolds, DomainsStay, ReachIsResult};
ghost use Rattle.pay_facts.specs.FoldLaws.{FoldedRanges};
ghost use Rattle.pay_facts.specs.SlotLaws.{SlotFactsAreNames, SlotEventsAreNames};
ghost use Rattle.pay_facts.specs.VisitLaws.{VisitsAreReached, EachEventIsReached};

/// Under facts that hold, the value of a number is one of its raws, or its fault is flagged.
pub fn ranges_are_sound()
    ensures { RangesAreSound }
{}

/// Under facts that hold, the truth of a decided condition is the decided one, or its fault is flagged.
pub fn decisions_are_sound()
    ensures { DecisionsAreSound }
{}

/// A comparison of two domains that both have raws is decided exactly where all raws agree on it.
pub fn decisions_read_raws()
    ensures { DecisionsReadRaws }
{}

/// Facts that hold before statements hold after them, unless they fault.
pub fn facts_hold_after()
    ensures { FactsHoldAfter }
{}

/// From variables of which the facts hold, they hold after the events of every run: under all fixings within their limit.
pub fn facts_hold_in_every_run()
    ensures { FactsHoldInEveryRun }
{}

/// Each variable has its own value at the start.
pub fn start_holds()
    ensures { StartHolds }
{}

/// The raws that numbers and variables can have stay domains: of a number, after statements, and after events.
pub fn domains_stay()
    ensures { DomainsStay }
{}

/// Of domains within the limit of a number `reach` is what an operator makes; it then flags no fault of the lesser or the greater of two.
pub fn reach_is_result()
    ensures { ReachIsResult }
{}

/// Folding leaves ranges, decisions and facts as they are: a constant has the range of what it was folded from, and a whole follows its parts.
pub fn folding_keeps_facts()
    ensures { FoldedRanges }
{}

/// Ranges, decisions and the facts after steps are by the numbers of variables what they are by their names.
pub fn slots_are_names()
    ensures { SlotFactsAreNames }
{}

/// The raws of the variables after events are by their numbers what they are by their names.
pub fn slot_events_are_names()
    ensures { SlotEventsAreNames }
{}

/// Under facts that hold, each part of steps that a run evaluates is reached, with facts that it fits: a value of its range, its decided truth, or a
/// fault that is flagged. So a part that is not reached is evaluated by no such run.
pub fn visits_are_reached()
    ensures { VisitsAreReached }
{}

/// The same before each event of a script, in every run that comes so far, from the facts after the earlier events: under all fixings within their limit.
pub fn each_event_is_reached()
    ensures { EachEventIsReached }
{}

/// What the definitions give for a few scripts and pieces.
pub fn examples_compute()
    ensures { Examples }
{}
