//! Laws of runs. Each function is empty: what it ensures is the law.

ghost use Rattle.pay_runs.specs.RunLaws.{BlendIsByName, CrispIsDirect, SlotsAreNames};

/// A crisp run is the direct one, whatever smoothings its comparisons carry.
pub fn crisp_is_direct()
    ensures { CrispIsDirect }
{}

/// Each variable of two blended branches has the blend of its two values.
pub fn blend_is_by_name()
    ensures { BlendIsByName }
{}

/// What events mean by the numbers of their variables and legs is what they mean by the names, and as many parts are evaluated.
pub fn slots_are_names()
    ensures { SlotsAreNames }
{}
