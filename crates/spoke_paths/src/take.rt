//! Steps taken on a path of spokes.
ghost use Rattle.std.specs.Prelude.{◌≡◌, ◌<◌, [], ◌∷◌, ℕ, List, length, Some, if◌then◌else◌};
ghost use Rattle.spoke_paths.specs.PathSteps.{upper_way, lower_way, after_path_step};

use crate::step::PathStep;
use crate::turn::next_number;
use turn_words::Wheel;

/// Takes a step on a path, which is allowed there.
pub fn take_step(wheel: &Wheel, path: &mut Vec<u32>, step: PathStep)
    requires { (next : List ℕ) × (after_path_step wheel.now step path.old.items ≡ Some next) }
    ensures { after_path_step wheel.now step path.old.items ≡ Some path.new.items }
{
    match step {
        PathStep::Spur { at } => {
            path.remove(at as usize + 1);
            path.remove(at as usize);
        }
        PathStep::Turn {
            at,
            side,
            partner,
            up,
        } => {
            let (first, second) = way_round(wheel.degree(), at % 2 == 0, up, side, partner);
            path[at as usize] = first;
            path[at as usize + 1] = second;
        }
    }
}

/// The upper or the lower way round a quad, from the vertex or from the middle.
fn way_round(degree: u32, from_vertex: bool, upper: bool, side: u32, partner: u32) -> (u32, u32)
    requires side { side < degree }
    requires partner { partner < degree }
    ensures { (if upper then upper_way degree from_vertex side partner else lower_way degree from_vertex side partner)
        ≡ result.0 ∷ result.1 ∷ [] }
{
    match (from_vertex, upper) {
        (true, true) => (side, next_number(degree, side)),
        (true, false) => (next_number(degree, partner), partner),
        (false, true) => (next_number(degree, partner), side),
        (false, false) => (partner, next_number(degree, side)),
    }
}
