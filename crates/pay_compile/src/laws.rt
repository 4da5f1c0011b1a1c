//! Laws of the compiler. Each function does nothing, or cites another law: what it ensures is the law.

ghost use Rattle.pay_compile.specs.CompileLaws.{PreparedIsSimplified};

use pay_simplified::laws::pruned_is_simplified;

/// The program of a trade, for crisp runs, is that of its simplified script.
pub fn prepared_is_simplified()
    ensures { PreparedIsSimplified }
{
    pruned_is_simplified();
}
