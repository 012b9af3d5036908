//! The least rotation of a closed list of spokes, which tells the list but for where it starts.
ghost use Rattle.std.specs.Prelude.{◌≡◌, ◌+◌, ◌<◌, ◌≤◌, ◌%◌, ◌^◌, ◌++◌, take, drop, length};
ghost use Rattle.spoke_rings.specs.CyclicWords.{spoke_along};
ghost use Rattle.spoke_rings.specs.Rotations.{IsLeastRotation};

/// The least rotation of a closed list of spokes, in lexicographic order. It takes no more memory, and looks at most six times as
/// often at a spoke as there are spokes in the list.
pub fn least_rotation(mut spokes: Vec<u32>) -> Vec<u32>
    requires even { length spokes.items % 2 ≡ 0 }
    requires short { length spokes.items < 2 ^ 32 }
    ensures { IsLeastRotation spokes.items result.items }
{
    let start = least_start(&spokes);
    spokes.rotate_left(start);
    spokes
}

/// The spoke from the vertex from which on a closed list is least.
///
/// A start is compared with a later one, its rival. Where the lists differ from these, the start of the greater one can be no
/// least start, and neither can those up to the difference (J. P. Duval's algorithm, by pairs of spokes).
fn least_start(spokes: &[u32]) -> usize
    requires even { length spokes.now % 2 ≡ 0 }
    requires short { length spokes.now < 2 ^ 32 }
    ensures within { result ≤ length spokes.now }
    ensures least { IsLeastRotation spokes.now (drop result spokes.now ++ take result spokes.now) }
{
    let len = spokes.len();
    if len == 0 {
        return 0;
    }
    let mut start = 0;
    let mut rival = 2;
    let mut same = 0;
    while rival < len && same < len {
        let one = cyclic_at(spokes, start + same);
        let other = cyclic_at(spokes, rival + same);
        // A start is moved behind the pair of spokes in which the lists differ.
        let behind = same + 2 - same % 2;
        if one == other {
            same += 1;
        } else if one < other {
            rival += behind;
            same = 0;
        } else {
            let next = (start + behind).max(rival + 2);
            start = rival;
            rival = next;
            same = 0;
        }
    }
    start
}

/// A spoke of a closed list, which is gone along twice at most.
fn cyclic_at(spokes: &[u32], at: usize) -> u32
    requires below { at < length spokes.now + length spokes.now }
    requires short { length spokes.now < 2 ^ 32 }
    ensures { result ≡ spoke_along spokes.now at }
{
    if at < spokes.len() {
        spokes[at]
    } else {
        spokes[at - spokes.len()]
    }
}
