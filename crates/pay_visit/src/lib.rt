//! The walks over the trees that a compiler changes in place, which every pass shares.
//!
//! A pass that changes trees is a [`Rewriter`]: it says what becomes of one number, one test or one step whose own parts are done, and
//! [`rewrite_node`], [`rewrite_test`] and [`rewrite_steps`] call it on every part after that part's own parts. A pass that gathers something is an
//! [`Observer`], and [`observe_steps`] shows it every part in the order of the text.
//!
//! The walks are proved once, for every pass. A rewriter says when a new tree *keeps* an old one and when a tree is *finished*, and proves that the
//! relation goes from parts to the whole; the walk then leaves a tree that keeps the old one and is finished. An observer says what it *has seen*,
//! and has seen all parts after the walk, or a front of them where there was no memory.
#![tactic(auto)]

mod observe;
mod rewrite;

pub use observe::{Observer, observe_steps};
pub use rewrite::{Rewriter, rewrite_node, rewrite_steps, rewrite_test};
