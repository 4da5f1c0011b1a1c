//! Stacks with a room of their own, so that a push takes no memory.

ghost use Rattle.std.specs.Prelude.{◌≡◌, ◌<◌, [], length, IfOk};
ghost use Rattle.pay_code.specs.Execution.{below_top};
ghost use Rattle.pay_machine.specs.Stacks.{popped, pushed, top_of, top_or};

use pay_fixed::NoMemory;
use std::alloc::Global;
use std::marker::Model;

/// A stack of at most so many entries as it has room for.
#[derive(Drop)]
pub(crate) struct Stack<T> {
    items: Vec<T>,
    room: usize,
}

impl<T> Model for Stack<T> {
    ghost use Rattle.std.specs.Prelude.{◌≤◌, reverse};
    ghost use Rattle.std.specs.Vec.{vec_capacity};
    ghost use Rattle.pay_machine.specs.Stacks.{Entries};

    ghost Value = { Entries T };

    ghost view = { λ stack. record { entries = reverse stack.items.items; room = stack.room } };

    ghost invariant = { λ stack. stack.room ≤ vec_capacity stack.items };
}

impl<T: Copy> Stack<T> {
    /// An empty stack with room for so many entries.
    pub(crate) fn prepare(alloc: Global, room: usize) -> Result<Stack<T>, NoMemory>
        ensures { IfOk result (λ stack. stack ≡ record { entries = []; room = room }) }
    {
        let items = Vec::with_capacity(alloc, room)?;
        Ok(Stack { items, room })
    }

    /// Puts an entry on top.
    #[inline(always)]
    pub(crate) fn push(&mut self, entry: T)
        requires { length self.old.entries < self.old.room }
        ensures { self.new ≡ pushed entry self.old }
    {
        self.items.push_reserved(entry);
    }

    /// Takes the entry on top away, if there is one.
    #[inline(always)]
    pub(crate) fn lower(&mut self)
        ensures { self.new ≡ popped self.old }
    {
        if !self.items.is_empty() {
            let _top = self.items.take_last();
        }
    }

    /// The entry on top; an empty stack has this one.
    #[inline(always)]
    pub(crate) fn top(&self, otherwise: T) -> T
        ensures { result ≡ top_or otherwise self.now.entries }
    {
        let count = self.items.len();
        if count == 0 {
            return otherwise;
        }
        self.items[count - 1]
    }

    /// The entry on top, if there is one.
    #[inline(always)]
    pub(crate) fn last(&self) -> Option<T>
        ensures { result ≡ top_of self.now.entries }
    {
        let count = self.items.len();
        if count == 0 {
            return None;
        }
        Some(self.items[count - 1])
    }

    /// The entry below the top; where there is none, this one.
    #[inline(always)]
    pub(crate) fn second(&self, otherwise: T) -> T
        ensures { result ≡ top_or otherwise (below_top self.now.entries) }
    {
        let count = self.items.len();
        if count < 2 {
            return otherwise;
        }
        self.items[count - 2]
    }

    /// Takes all entries, and keeps the room.
    pub(crate) fn clear(&mut self)
        ensures { self.new ≡ record { entries = []; room = self.old.room } }
    {
        self.items.clear();
    }
}
