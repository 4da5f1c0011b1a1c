//! Laws of the simplified script. Each function is empty, or cites another law: what it ensures is the law.

ghost use Rattle.pay_simplified.specs.Examples.{Examples};
ghost use Rattle.pay_simplified.specs.PruningLaws.{FillingKeepsPruned, GoodTradesCanBePruned, PrunedCanBeLowered, PrunedIsSimplified, PrunedPaysTheSame};
ghost use Rattle.pay_simplified.specs.PruningLaws.{PrunedStepsAreSimple};
ghost use Rattle.pay_simplified.specs.SimpleLaws.{FoldingKeepsSimplified, FormsShowDecisions, SimpleIsSame, SimplifiedPaysTheSame, TermsKeepSimplified};

use pay_analysis::laws::marks_are_own;

/// Under facts that hold, what is simplified has the same value, truth or effect, or the same fault.
pub fn simple_is_same()
    ensures { SimpleIsSame }
{}

/// The simplified form of a condition shows how it is decided.
pub fn forms_show_decisions()
    ensures { FormsShowDecisions }
{}

/// The simplified script pays, ends and faults as the script, in every run from variables of which the facts hold.
pub fn simplified_pays_the_same()
    ensures { SimplifiedPaysTheSame }
{}

/// Constants that are folded before make no difference to the simplified script.
pub fn folding_keeps_simplified()
    ensures { FoldingKeepsSimplified }
{}

/// Nor does `period()` or `days()` as a literal.
pub fn terms_keep_simplified()
    ensures { TermsKeepSimplified }
{}

/// Steps pruned by their own marks stand for the simplified body.
pub fn pruned_steps_are_simple()
    ensures { PrunedStepsAreSimple }
{
    marks_are_own();
}

/// Pruned events stand for the simplified script.
pub fn pruned_is_simplified()
    ensures { PrunedIsSimplified }
{
    marks_are_own();
}

/// What pruned events stand for pays, ends and faults as before.
pub fn pruned_pays_the_same()
    ensures { PrunedPaysTheSame }
{
    marks_are_own();
}

/// The events of a good trade can be pruned.
pub fn good_trades_can_be_pruned()
    ensures { GoodTradesCanBePruned }
{}

/// Pruned events can be lowered where the events could, with payments on the same legs and no more of them.
pub fn pruned_can_be_lowered()
    ensures { PrunedCanBeLowered }
{}

/// Filling the choices of steps changes neither their marks nor what they stand for.
pub fn filling_keeps_pruned()
    ensures { FillingKeepsPruned }
{}

/// What the definitions give for a few conditions and statements.
pub fn examples_compute()
    ensures { Examples }
{}
