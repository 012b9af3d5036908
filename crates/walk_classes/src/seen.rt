//! The first place of each key.
ghost use Rattle.std.specs.Prelude.{◌≡◌, cond, IfOk, MatchOption, Some};
ghost use Rattle.std.specs.Ordering.{is_eq};
ghost use Rattle.std.specs.BTreeMap.{get, IsUnchanged};
ghost use Rattle.walk_classes.specs.Keys.{key_order};

use crate::key::Key;
use std::alloc::AllocError;
use std::collections::BTreeMap;

/// The first place of a key among the places so far and this one.
pub(crate) fn first_place(
    seen: &mut BTreeMap<Key, usize>,
    key: Key,
    place: usize,
) -> Result<usize, AllocError>
    ensures { IfOk result (λ first. MatchOption (get key_order seen.old key)
        ((first ≡ place)
        × ((other : Key) → get key_order seen.new other
        ≡ cond (is_eq (key_order key other)) (Some place) (get key_order seen.old other)))
        (λ found. (first ≡ found) × IsUnchanged seen.old seen.new)) }
{
    if let Some(first) = seen.get(&key) {
        return Ok(*first);
    }
    seen.insert(key, place)?;
    Ok(place)
}
