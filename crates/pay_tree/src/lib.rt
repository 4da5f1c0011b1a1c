//! The trees of a script: the surface trees, with its names, numbers, conditions, statements and items as they are written; and the owned trees of
//! the compiler, in which variables and legs are numbers and each number and test has its place.
//!
//! Beside the trees stands what is asked of them: the variables and the legs of a script, how large a body is, and a copy of a body or of an event. An
//! item is statements on one date, or a schedule with statements on each of its dates; a schedule's dates are no part of the tree, only its terms are.
//!
//! A clause sees a surface tree as the plain data of the language, by the views of `specs/Views.antt`, and a name as its bytes. It sees an owned tree
//! as plain data with places, by the views of `specs/OwnedViews.antt`; what such trees stand for in the language is said in `specs/Owned.antt`.
#![tactic(auto)]

mod copy;
mod name;
mod names;
mod owned;
mod owned_copy;
mod parts;
mod sizes;
mod tree;

pub use copy::copy_body;
pub use name::{Name, NameFault};
pub use names::{legs, variables};
pub use owned::{Event, Node, NodeKind, Step, Test, TestKind};
pub use owned_copy::copy_event;
pub use sizes::{pays, size};
pub use tree::{Binary, Compare, Cond, Expr, Item, NamedEvent, Script, Stmt, Unary};
