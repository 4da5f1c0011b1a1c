//! Laws of the text of steps. Each function is empty: what it ensures is the law.

ghost use Rattle.pay_print.specs.PrintLaws.{TreeTextsAreStepTexts};

/// The text of owned steps is the text of the steps that they stand for, where each choice has the variables that its branches assign.
pub fn tree_texts_are_step_texts()
    ensures { TreeTextsAreStepTexts }
{}
