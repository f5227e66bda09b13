//! A stack of byte strings onto which a push takes no memory: it brings the room for its node.
ghost use Rattle.std.specs.Prelude.{◌≡◌, [], ◌∷◌, ◌++◌, reverse, IfSome, IfNone, IfOk};

use as4_values::{NoMemory, Octets, Seq};
use std::alloc::Global;
use std::marker::Model;
use std::mem;

/// Byte strings, the last pushed first.
#[cycle(stack)]
#[derive(Drop)]
pub struct Stack {
    top: Node,
}

#[cycle(stack)]
#[derive(Drop)]
enum Node {
    End,
    More(Octets, Box<Stack>),
}

impl Model for Stack {
    ghost use Rattle.std.specs.Prelude.{List, ℕ, length};

    ghost Value = { List (List ℕ) };

    ghost use Rattle.as4_host.specs.Nodes.{items};

    ghost view = { λ stack. items stack.top };

    ghost size = { length };

    ghost use Rattle.std.proofs.Common.{arith};

    ghost size_decreases = { λ stack _. Prim.grind arith };
}

impl Stack {
    pub fn new() -> Stack
        ensures { result ≡ [] }
    {
        Stack { top: Node::End }
    }

    /// The first of the items on top.
    pub fn of(alloc: Global, items: Seq<Octets>) -> Result<Stack, NoMemory>
        ensures { IfOk result (λ stack. stack ≡ items) }
    {
        let mut items = items.into_vec();
        let mut stack = Stack::new();
        while let Some(item) = items.pop() {
            let Ok(room) = Stack::room(alloc) else {
                drop(item);
                drop(items);
                drop(stack);
                return Err(NoMemory);
            };
            stack.push(item, room);
        }
        drop(items);
        Ok(stack)
    }

    /// Room for one more item.
    pub(crate) fn room(alloc: Global) -> Result<Box<Stack>, NoMemory> {
        match Box::new(alloc, Stack::new()) {
            Ok(room) => Ok(room),
            Err(refused) => {
                drop(refused);
                Err(NoMemory)
            }
        }
    }

    pub(crate) fn push(&mut self, item: Octets, mut room: Box<Stack>)
        ensures { self.new ≡ item ∷ self.old }
    {
        *room = mem::replace(self, Stack::new());
        self.top = Node::More(item, room);
    }

    /// Takes the item on top.
    pub fn pop(&mut self) -> Option<Octets>
        ensures some { IfSome result (λ item. self.old ≡ item ∷ self.new) }
        ensures none { IfNone result ((self.old ≡ []) × (self.new ≡ [])) }
    {
        let (item, room) = self.take()?;
        drop(room);
        Some(item)
    }

    /// These items, and below them the others. It takes no memory.
    pub(crate) fn put_on(&mut self, others: Stack)
        ensures { self.new ≡ self.old ++ others }
    {
        let mut turned = Stack::new();
        mem::replace(self, others).turn_onto(&mut turned);
        turned.turn_onto(self);
    }

    // Moves the items onto the other stack, from the top one down.
    fn turn_onto(mut self, other: &mut Stack)
        ensures { other.new ≡ reverse self ++ other.old }
    {
        while let Some((item, room)) = self.take() {
            other.push(item, room);
        }
        drop(self);
    }

    // Takes the item on top with the room of its node.
    fn take(&mut self) -> Option<(Octets, Box<Stack>)>
        ensures some { IfSome result (λ taken. self.old ≡ taken.0 ∷ self.new) }
        ensures none { IfNone result ((self.old ≡ []) × (self.new ≡ [])) }
    {
        let Stack { top } = mem::replace(self, Stack::new());
        match top {
            Node::End => None,
            Node::More(item, mut below) => {
                mem::swap(self, &mut *below);
                Some((item, below))
            }
        }
    }
}
