//! Whether the two sides of a chain are those of a walk.
ghost use Rattle.std.specs.Prelude.{◌≡◌, ◌+◌, ◌++◌, ◌-◌, ◌<◌, ◌≤◌, ◌^◌, ◌↔◌, length, reverse, take, drop, IsTrue};

use chain_pool::{Entries, Halves};
use surf_model::{VertexName, Walk};

/// Whether both sides of a place are those of a walk from `start` on.
pub fn are_sides(halves: Halves<'_>, walk: &Walk, start: u32) -> bool
    requires within { start + (length halves.before + length halves.behind) ≤ length walk.now }
    requires few { length walk.now < 2 ^ 32 }
    ensures { IsTrue result ↔ (reverse halves.entry.before ++ halves.entry.behind
        ≡ take (length halves.entry.before + length halves.entry.behind) (drop start walk.now)) }
{
    let place = start + halves.before.len();
    are_before(halves.before, walk, place) && are_behind(halves.behind, walk, place)
}

/// Whether the entries before a place, the nearest first, are those of a walk up to that place.
fn are_before(mut entries: Entries<'_>, walk: &Walk, place: u32) -> bool
    requires len { length entries ≤ place }
    requires within { place ≤ length walk.now }
    ensures { IsTrue result ↔ (reverse entries.entry ≡ take (length entries.entry) (drop (place - length entries.entry) walk.now)) }
{
    for k in 0..entries.len() {
        let value = entries.next().unwrap();
        if VertexName(value) != walk.at(place - 1 - k) {
            return false;
        }
    }
    true
}

/// Whether the entries from a place on are those of a walk.
fn are_behind(mut entries: Entries<'_>, walk: &Walk, place: u32) -> bool
    requires len { place + length entries ≤ length walk.now }
    requires few { length walk.now < 2 ^ 32 }
    ensures { IsTrue result ↔ (entries.entry ≡ take (length entries.entry) (drop place walk.now)) }
{
    for k in 0..entries.len() {
        let value = entries.next().unwrap();
        if VertexName(value) != walk.at(place + k) {
            return false;
        }
    }
    true
}
