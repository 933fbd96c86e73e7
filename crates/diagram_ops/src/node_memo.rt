//! Results by the number of one node.
ghost use Rattle.std.specs.Prelude.{◌≡◌, ◌≢◌, ◌≤◌, ℕ, OnOk, OnErr, None, Some, [], length};
ghost use Rattle.diagram_ops.specs.Marks.{result_for};

use bit_lists::OutOfMemory;
use std::alloc::Global;
use std::marker::Model;

/// A result, which counts only in the call of its stamp.
#[derive(Clone, Copy, Drop)]
pub struct Mark {
    pub stamp: u32,
    pub node: u32,
}

/// The results of one call by their node's number, in memory that is kept from call to call.
///
/// Takes eight bytes for each number up to the largest that had a result. `find` takes constant time,
/// and `begin` touches no memory.
#[derive(Drop)]
pub struct NodeMemo {
    alloc: Global,
    marks: Vec<Mark>,
    stamp: u32,
}

impl Model for NodeMemo {
    ghost use Rattle.std.specs.Prelude.{List, Option, ℕ};
    ghost use Rattle.diagram_ops.specs.Marks.{results_of, IsStamped};

    ghost Value = { List (Option ℕ) };

    ghost view = { λ a. results_of a.stamp a.marks.items };

    ghost invariant = { λ a. IsStamped a.stamp a.marks.items };
}

impl NodeMemo {
    /// No result. Takes no memory yet.
    pub fn new(alloc: Global) -> NodeMemo
        ensures { result ≡ [] }
    {
        NodeMemo {
            alloc,
            marks: Vec::new(alloc),
            stamp: 1,
        }
    }

    /// Forgets all results, and keeps the memory for the next call.
    pub fn begin(&mut self)
        ensures { (n : ℕ) → result_for self.new n ≡ None }
    {
        if self.stamp == u32::MAX {
            self.marks.clear();
            self.stamp = 1;
            return;
        }
        self.stamp += 1;
    }

    /// The result for a node.
    pub fn find(&self, n: u32) -> Option<u32>
        ensures { result ≡ result_for self.now n }
    {
        let marks = &self.marks;
        let place = n as usize;
        if place >= marks.len() {
            return None;
        }
        let mark = marks[place];
        if mark.stamp == self.stamp {
            Some(mark.node)
        } else {
            None
        }
    }

    /// Makes places for numbers below a bound: where there are too few, at least as many again.
    fn lengthen(&mut self, bound: usize) -> Result<(), OutOfMemory>
        ensures room { OnOk result (bound ≤ length self.new) }
        ensures same { (n : ℕ) → result_for self.new n ≡ result_for self.old n }
    {
        let len = self.marks.len();
        if bound <= len {
            return Ok(());
        }
        let free = Mark { stamp: 0, node: 0 };
        let more = (bound - len).max(len);
        let places = vec![in self.alloc; free; more]?;
        self.marks.extend_from_slice(&places)?;
        Ok(())
    }

    /// Keeps a result for a node.
    pub fn add(&mut self, n: u32, node: u32) -> Result<(), OutOfMemory>
        ensures here { OnOk result (result_for self.new n ≡ Some node) }
        ensures others { (m : ℕ) → m ≢ n → result_for self.new m ≡ result_for self.old m }
        ensures err { OnErr result ((m : ℕ) → result_for self.new m ≡ result_for self.old m) }
    {
        let place = n as usize;
        self.lengthen(place + 1)?;
        let stamp = self.stamp;
        self.marks[place] = Mark { stamp, node };
        Ok(())
    }
}
