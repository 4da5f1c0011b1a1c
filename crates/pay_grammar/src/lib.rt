//! The grammar of scripts: which tokens spell which script, and the limits that are counted on tokens. The crate has no code that runs.
//!
//! - `specs/Grammar.antt`: the relation between tokens and the number, condition, statement, item or script that they spell, over all ways to cut
//!   them.
//! - `specs/Reading.antt`: the script of tokens, by reading them one at a time and each once. What is open is a stack of frames, and a mode says
//!   what is awaited. In `@2024-06-28 a pays -(1 + 2) * x - 3` the frames after `2` are a bracket, with `-` left of it, in a statement that pays
//!   `a`, in the statements of an item, in a script; and what is awaited is what follows a factor.
//! - `specs/TokenLimits.antt`: the first token that is too large, and the first with which too many brackets or ifs are open or too many operators
//!   stand in a stretch; `specs/TokenDepths.antt`: the same depths, as they are counted along the tokens.
//! - [`grammar_laws`]: the reading finds exactly the script that the tokens spell, and they spell one at most.
//! - [`limit_laws`]: what is found is the first token at which a limit is passed, and none is found exactly where there is none.
//!
//! Factors are grouped before terms, a minus sign before both, and each of them to the left, so `a - b - c` is `(a - b) - c` and `min(a, b, c)` is
//! `min(min(a, b), c)`. In a condition `not` is grouped before `and`, and `and` before `or`, and both of these to the left. A bracket that stands
//! where a comparison may begin can be that of a condition or that of a number: what stands in it shows which, so no token is read twice.
#![tactic(auto)]

pub mod grammar_laws;
pub mod limit_laws;
