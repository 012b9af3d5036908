//! A closed list of spokes is brought to a cyclically canonical one.
ghost use Rattle.std.specs.Prelude.{◌≡◌, ℕ, ◌<◌, ◌≤◌, length, IfOk};
ghost use Rattle.spoke_rings.specs.CyclicWords.{IsLoop, IsFullWheel, IsCyclicallyCanonical};
ghost use Rattle.spoke_rings.specs.LoopSteps.{LoopLeads};

use crate::ring::Ring;
use std::alloc::{AllocError, Global};
use turn_words::Wheel;

/// A cyclically canonical list of spokes that steps lead to from a closed list, and that is no longer.
///
/// Where the turn word of the list is canonical, the time is about linear in its length. A list that goes to and fro behind
/// a long run of turns takes the square, so it is best to take the canonical word of a long walk first.
pub fn cyclic_form(alloc: Global, wheel: &Wheel, spokes: &[u32]) -> Result<Vec<u32>, AllocError>
    requires full { IsFullWheel wheel.now }
    requires spokes { IsLoop wheel.now spokes.now }
    ensures spokes { IfOk result (λ form. IsLoop wheel.now form.items) }
    ensures canonical { IfOk result (λ form. IsCyclicallyCanonical wheel.now form.items) }
    ensures leads { IfOk result (λ form. LoopLeads wheel.now spokes.now form.items) }
    ensures not_longer { IfOk result (λ form. length form.items ≤ length spokes.now) }
{
    let mut ring = Ring::new(alloc, spokes)?;
    ring.reduce(wheel);
    ring.to_vertex();
    if ring.len() > 0 && ring.all_fall(wheel) {
        ring.turn_over(wheel)?;
        ring.to_vertex();
    }
    let form = ring.into_spokes(alloc)?;
    Ok(form)
}
