//! Laws of pruning. A function cites the law that it stands on: what it ensures is the law.

ghost use Rattle.pay_prune.specs.PruneLaws.{PrunedIsSimplified};

use pay_simplified::laws::pruned_steps_are_simple;

/// An event that is pruned by the marks of a walk over it stands for the simplified event of what it stands for.
pub fn pruned_is_simplified()
    ensures { PrunedIsSimplified }
{
    pruned_steps_are_simple();
}
