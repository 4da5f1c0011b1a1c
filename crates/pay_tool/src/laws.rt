//! Laws that show that the definitions are the ones meant.

ghost use Rattle.pay_tool.specs.ToolLaws.{OneAnswer};

pub use pay_inputs::laws::{
    past_acceptance_has_cause, past_refusal_has_cause, script_acceptance_has_cause,
    script_refusal_has_cause, table_acceptance_has_cause, table_refusal_has_cause,
};

/// Words and files have exactly one answer, in the words of the grammar: that of `answer_of`.
pub fn one_answer()
    ensures { OneAnswer }
{}
