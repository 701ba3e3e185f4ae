//! Copies of nodes in another forest, without those that are of no use any more.
ghost use Rattle.std.specs.Prelude.{ℕ, ◌≡◌, ◌+◌, ◌∷◌, ◌<◌, ◌≤◌, Some, [], drop, take, length, slice_get, slice_set, IfOk, OnErr, OnOk};
ghost use Rattle.frozen_nodes.specs.Forest.{AreBelow, node_at};
ghost use Rattle.frozen_nodes.specs.Moves.{AllMoved, AllReached, AreNumbers, MovesNode};

use super::Forest;
use crate::nodes::after;
use hk_base::NoMemory;
use std::alloc::Global;

/// Returns the new number of a node, if it has one.
fn number_of(numbers: &Vec<Option<u32>>, n: u32) -> Option<u32>
    requires { n < length numbers.now.items }
    ensures { slice_get numbers.now.items n ≡ Some result }
{
    numbers[n as usize]
}

fn set_number(numbers: &mut Vec<Option<u32>>, n: u32, number: u32)
    requires { n < length numbers.old.items }
    ensures items { numbers.new.items ≡ slice_set numbers.old.items n (Some number) }
    ensures count { length numbers.new.items ≡ length numbers.old.items }
{
    numbers[n as usize] = Some(number);
}

/// Returns a list that has no number for any node.
fn no_numbers(alloc: Global, count: usize) -> Result<Vec<Option<u32>>, NoMemory>
    ensures count { IfOk result (λ numbers. length numbers.items ≡ count) }
    ensures none { IfOk result
        (λ numbers. (k m : ℕ) → slice_get numbers.items k ≡ Some (Some m) → ⊥) }
{
    let mut numbers = Vec::new(alloc);
    'fill: for place in 0..count {
        numbers.push(None)?;
    }
    Ok(numbers)
}

impl Forest {
    /// Appends a copy of a node to another forest, where the copies of its kids are at the end of
    /// the stack.
    fn move_with(
        &self,
        n: u32,
        to: &mut Forest,
        numbers: &mut Vec<Option<u32>>,
        stack: &mut Vec<u32>,
        start: usize,
    ) -> Result<u32, NoMemory>
        requires node { n < length self.now.nodes }
        requires count { length numbers.old.items ≡ length self.now.nodes }
        requires numbered { AreNumbers self.now.nodes to.old.nodes numbers.old.items }
        requires kids { AllMoved self.now.nodes to.old.nodes (node_at self.now.nodes n).kids
            (drop start stack.old.items) }
        ensures moves { IfOk result
            (λ m. MovesNode self.now.nodes to.old.nodes to.new.nodes numbers.new.items n m) }
        ensures number { IfOk result (λ m. m ≡ length to.old.nodes) }
        ensures one { OnOk result (length to.new.nodes ≡ length to.old.nodes + 1) }
        ensures own { IfOk result
            (λ m. (node_at to.new.nodes m).kids ≡ drop start stack.old.items) }
        ensures stack { OnOk result (stack.new.items ≡ take start stack.old.items) }
    {
        self.invariants();
        let _count = self.kids(n).len();
        let own = after(stack.as_slice(), start);
        let number = to.push(self.row(n), self.name(n), own)?;
        set_number(numbers, n, number);
        stack.truncate(start);
        Ok(number)
    }

    /// Returns the number of a node's copy in another forest. It is made, with those of the nodes
    /// below it, if there is none.
    fn move_node(
        &self,
        n: u32,
        to: &mut Forest,
        numbers: &mut Vec<Option<u32>>,
        stack: &mut Vec<u32>,
    ) -> Result<u32, NoMemory>
        requires node { n < length self.now.nodes }
        requires count { length numbers.old.items ≡ length self.now.nodes }
        requires numbered { AreNumbers self.now.nodes to.old.nodes numbers.old.items }
        ensures moves { IfOk result
            (λ m. MovesNode self.now.nodes to.old.nodes to.new.nodes numbers.new.items n m) }
        ensures reached { IfOk result
            (λ m. AllReached (length to.old.nodes) to.new.nodes (m ∷ [])) }
        ensures stack { OnOk result (stack.new.items ≡ stack.old.items) }
    {
        self.invariants();
        if let Some(number) = number_of(numbers, n) {
            return Ok(number);
        }
        let start = stack.as_slice().len();
        let kids = self.kids(n);
        for kid in kids {
            let moved = self.move_node(*kid, to, numbers, stack)?;
            stack.push(moved)?;
        }
        let number = self.move_with(n, to, numbers, stack, start)?;
        Ok(number)
    }

    /// Copies the nodes at and below roots to another forest, and returns the roots' copies.
    fn move_roots(&self, to: &mut Forest, roots: &[u32]) -> Result<Vec<u32>, NoMemory>
        requires empty { to.old.nodes ≡ [] }
        requires within { AreBelow (length self.now.nodes) roots.now }
        ensures moved { IfOk result
            (λ moved. AllMoved self.now.nodes to.new.nodes roots.now moved.items) }
        ensures reached { IfOk result (λ moved. AllReached 0 to.new.nodes moved.items) }
    {
        let mut numbers = no_numbers(self.alloc, self.len())?;
        let mut stack = Vec::new(self.alloc);
        let mut moved = Vec::new(self.alloc);
        for root in roots {
            let copy = self.move_node(*root, to, &mut numbers, &mut stack)?;
            moved.push(copy)?;
        }
        Ok(moved)
    }

    /// Keeps the nodes at and below roots, and gives back the memory of all others. The roots become
    /// the numbers of the nodes that have their names and rows from then on. Returns `NoMemory` if
    /// allocation fails, as it takes memory for the nodes that are kept; the nodes and the roots are
    /// then unchanged.
    pub fn keep(&mut self, roots: &mut Vec<u32>) -> Result<(), NoMemory>
        requires { AreBelow (length self.old.nodes) roots.old.items }
        ensures ok { OnOk result
            (AllMoved self.old.nodes self.new.nodes roots.old.items roots.new.items) }
        ensures reached { OnOk result (AllReached 0 self.new.nodes roots.new.items) }
        ensures err { OnErr result
            ((self.new.nodes ≡ self.old.nodes) × (roots.new.items ≡ roots.old.items)) }
    {
        let mut kept = Forest::new(self.alloc);
        let moved = self.move_roots(&mut kept, roots.as_slice())?;
        *self = kept;
        *roots = moved;
        Ok(())
    }
}
