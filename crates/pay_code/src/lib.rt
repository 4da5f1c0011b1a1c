//! Flat code: the operations that events are lowered to, what code does, and the lowering.
//!
//! - [`Op`]: an operation.
//! - [`Program`]: flat code that stands for events, ready to run.
//! - [`lower`]: the program of events.
//! - `specs/Flat.antt`: the flat code of events, part by part, with its table of the variables that choices change.
//! - `specs/Execution.antt`: what code does, whatever it is: operation by operation, over two stacks, the choices that have begun and the
//!   values that they saved.
//! - `specs/Filled.antt`: choices that list the variables which their branches assign.
//! - `specs/Bounds.antt`: how much a run makes of what it works on.
//! - [`laws`]: flat code does what its events mean, and what bounds a run of any code.
#![tactic(auto)]

pub mod laws;
mod lower_number;
mod lower_step;
mod lower_test;
mod lowering;
mod op;
mod places;
mod program;

pub use lowering::lower;
pub use op::Op;
pub use program::Program;
