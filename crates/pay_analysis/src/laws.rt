//! Laws of the marks. Each function is empty: what it ensures is the law.

ghost use Rattle.pay_analysis.specs.MarkLaws.{MarksAreOwn};

/// After a walk each part that is reached has its own mark, where no two parts of the event have one id; any other id has none.
pub fn marks_are_own()
    ensures { MarksAreOwn }
{}
