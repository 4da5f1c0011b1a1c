//! Laws of what is said of a script. Each function is empty, or cites another law: what it ensures is the law.

ghost use Rattle.pay_explain.specs.ExplainLaws.{ExplainedAtTerms, ExplainedByName, ExplainedDomainsHold};

use pay_simplified::laws::pruned_steps_are_simple;

/// What is said of a good trade by the numbers of its variables is said of the events that it stands for, by their names, from no variables.
pub fn explained_by_name()
    ensures { ExplainedByName }
{
    pruned_steps_are_simple();
}

/// What is said of events is the same where `period()` and `days()` are their own as literals.
pub fn explained_at_terms()
    ensures { ExplainedAtTerms }
{}

/// What is said of an event of a good trade holds in every run: each line shows the raws of its variable after the event, and where a run from no
/// variables, under fixings within their limit, comes so far, the value of the variable is one of them.
pub fn explained_domains_hold()
    ensures { ExplainedDomainsHold }
{}
