//! Classes of numbers: at first each number is a class of its own, and then classes are joined two by two.
ghost use Rattle.std.specs.Prelude.{◌≡◌, ◌≢◌, ◌↔◌, ◌<◌, ◌≤◌, ◌^◌, ℕ, length, slice_index, IfOk, IsTrue};
ghost use Rattle.std.specs.List.{range_with_len};
ghost use Rattle.connectivity.specs.Classes.{IsForest, AreLeastMembers, root_of, roots_of, joined_at, HasSameRoots};

use std::alloc::{AllocError, Global};
use std::marker::Model;

/// The numbers below some count in classes. It is seen as the list of the least member of each number's class.
///
/// The numbers make a forest whose roots are the least members.
#[derive(Drop)]
pub struct Classes {
    parents: Vec<u32>,
}

impl Model for Classes {
    ghost use Rattle.std.specs.Prelude.{ℕ, List};
    ghost use Rattle.connectivity.specs.Classes.{IsForest, roots_of};

    ghost Value = { List ℕ };

    ghost view = { λ a. roots_of a.parents.items };

    ghost invariant = { λ a. IsForest a.parents.items };
}

impl Classes {
    /// Each number below `count` in a class of its own.
    pub fn new(alloc: Global, count: u32) -> Result<Classes, AllocError>
        ensures { IfOk result (λ classes. classes ≡ range_with_len 0 count) }
    {
        let mut parents = Vec::with_capacity(alloc, count as usize)?;
        for number in 0..count {
            parents.push(number)?;
        }
        Ok(Classes { parents })
    }

    /// Makes one class of those of two numbers.
    pub fn join(&mut self, x: u32, y: u32)
        requires first { x < length self.old }
        requires second { y < length self.old }
        ensures { self.new ≡ joined_at self.old x y }
    {
        self.join_apart(x, y);
    }

    /// Makes one class of those of two numbers, and tells whether they were in two classes before.
    pub fn join_apart(&mut self, x: u32, y: u32) -> bool
        requires first { x < length self.old }
        requires second { y < length self.old }
        ensures joined { self.new ≡ joined_at self.old x y }
        ensures apart { IsTrue result ↔ (slice_index self.old x ≢ slice_index self.old y) }
    {
        link(&mut self.parents, x, y)
    }

    /// For each number the least member of its class.
    pub fn into_least(self) -> Vec<u32>
        ensures members { result.items ≡ self }
        // What holds of all classes.
        ensures least { AreLeastMembers result.items }
    {
        let Classes { mut parents } = self;
        settle(&mut parents);
        parents
    }
}

/// The root of a number. The path to it is made shorter.
fn root(parents: &mut [u32], number: u32) -> u32
    requires forest { IsForest parents.old }
    requires within { number < length parents.old }
    ensures root { result ≡ root_of parents.old number }
    ensures forest { IsForest parents.new }
    ensures roots { HasSameRoots parents.old parents.new }
{
    let mut at = number;
    while parents[at as usize] != at {
        let parent = parents[at as usize];
        let above = parents[parent as usize];
        parents[at as usize] = above;
        at = above;
    }
    at
}

/// Puts the greater of the roots of two numbers below the lesser, and tells whether they were two.
fn link(parents: &mut [u32], x: u32, y: u32) -> bool
    requires forest { IsForest parents.old }
    requires first { x < length parents.old }
    requires second { y < length parents.old }
    ensures forest { IsForest parents.new }
    ensures roots { roots_of parents.new ≡ joined_at (roots_of parents.old) x y }
    ensures apart { IsTrue result ↔ (root_of parents.old x ≢ root_of parents.old y) }
{
    let first = root(parents, x);
    let second = root(parents, y);
    parents[first.max(second) as usize] = first.min(second);
    first != second
}

/// Writes at each number its root.
fn settle(parents: &mut [u32])
    requires { IsForest parents.old }
    ensures { parents.new ≡ roots_of parents.old }
{
    // A parent comes before its children, so it has its root when they are met.
    for number in 0..parents.len() {
        let parent = parents[number];
        parents[number] = parents[parent as usize];
    }
}
