//! Where an entry of a walk of the double is in the fold of that walk.
ghost use Rattle.std.specs.Prelude.{◌≡◌, ◌+◌, ◌<◌, ◌≤◌, length, take, slice_index};
ghost use Rattle.doubling.specs.Folds.{folded};
ghost use Rattle.folded_lists.specs.FoldedLists.{IsFoldedEntry};

use crate::below::fold;
use move_checker::Tape;
use surf_model::VertexName;

/// An entry of a walk of the double, by its place there and by the place of its vertex in the fold of the walk.
#[derive(Clone, Copy)]
pub(crate) struct Entry {
    pub above: u32,
    pub below: u32,
}

/// The entry at another place of the walk. What lies between the two is read.
pub(crate) fn go_to(count: u32, tape: &Tape, from: Entry, above: u32) -> Entry
    requires from { IsFoldedEntry count tape.now.walk from.above from.below }
    requires above { above < length tape.now.walk }
    ensures entry { IsFoldedEntry count tape.now.walk result.above result.below }
    ensures above { result.above ≡ above }
{
    let below = if from.above <= above {
        from.below + new_ones(count, tape, from.above, above)
    } else {
        from.below - new_ones(count, tape, above, from.above)
    };
    Entry { above, below }
}

/// How many of the entries behind one, up to another, have another fold than the one before.
fn new_ones(count: u32, tape: &Tape, from: u32, to: u32) -> u32
    requires order { from ≤ to }
    requires to { to < length tape.now.walk }
    ensures { length (folded count (take (from + 1) tape.now.walk)) + result ≡ length (folded count (take (to + 1) tape.now.walk)) }
{
    let mut last = fold(count, vertex(tape, from));
    let mut new_ones = 0;
    for place in from..to {
        let next = fold(count, vertex(tape, place + 1));
        if next != last {
            new_ones += 1;
        }
        last = next;
    }
    new_ones
}

/// The vertex at a place of the walk.
pub(crate) fn vertex(tape: &Tape, place: u32) -> VertexName
    requires { place < length tape.now.walk }
    ensures { result.0 ≡ slice_index tape.now.walk place }
{
    VertexName(tape.pool().at(tape.chain(), place))
}
