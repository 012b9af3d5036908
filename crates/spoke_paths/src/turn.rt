//! The turns of a path of spokes, and one quad taken the other way round.
ghost use Rattle.std.specs.Prelude.{◌≡◌, ◌+◌, ◌-◌, ◌<◌, ◌≤◌, ◌^◌, ◌++◌, [], ◌∷◌, not, ℕ, List};
ghost use Rattle.std.specs.Prelude.{All, length, slice_index, true, if◌then◌else◌, Some, MatchOption};
ghost use Rattle.turn_words.specs.Modulo.{add, minus};
ghost use Rattle.turn_words.specs.Wheels.{IsWheel};
ghost use Rattle.turn_words.specs.SpokePaths.{place_round};
ghost use Rattle.spoke_paths.specs.PathSteps.{is_quad, upper_way, lower_way, after_path_step};
ghost use Rattle.spoke_paths.specs.PathTurns.{turn_of, Opens, HasQuads, IsTurnedOver};

use crate::step::PathStep;
use surf_model::Spoke;
use turn_words::Wheel;

/// A number less another one, modulo the degree.
fn difference(degree: u32, a: u32, b: u32) -> u32
    requires a_below { a < degree }
    requires b_below { b < degree }
    ensures difference { result ≡ add degree a (minus degree b) }
    ensures below { result < degree }
{
    if a < b { degree - b + a } else { a - b }
}

/// The number that comes after a number, modulo the degree.
pub(crate) fn next_number(degree: u32, a: u32) -> u32
    requires { a < degree }
    ensures next { result ≡ add degree a 1 }
    ensures below { result < degree }
{
    if a + 1 == degree { 0 } else { a + 1 }
}

/// The turn of the spoke with a number against the spoke before it.
pub(crate) fn turn_at(wheel: &Wheel, path: &[u32], at: usize) -> u32
    requires below { All (λ spoke. spoke < length wheel.now) path.now }
    requires from { 1 ≤ at }
    requires to { at < length path.now }
    ensures turn { result ≡ turn_of wheel.now path.now at }
    ensures below { result < length wheel.now }
{
    let degree = wheel.degree();
    let (spoke, before) = (path[at], path[at - 1]);
    if at % 2 == 0 {
        let place = wheel.place(Spoke(spoke));
        difference(degree, place, wheel.place(Spoke(before)))
    } else {
        difference(degree, spoke, before)
    }
}

/// The number from which a bracket is open up to the last spoke: there the turn is `one`, and from there on it
/// is `two`.
pub(crate) fn opening(wheel: &Wheel, path: &[u32], one: u32, two: u32) -> Option<usize>
    requires below { All (λ spoke. spoke < length wheel.now) path.now }
    requires some { 1 ≤ length path.now }
    requires apart { one ≡ two → ⊥ }
    ensures { MatchOption result ((start : ℕ) → ¬ Opens wheel.now path.now one two start (length path.now - 1))
        (λ start. Opens wheel.now path.now one two start (length path.now - 1)) }
{
    let mut at = path.len() - 1;
    while at >= 2 {
        at -= 1;
        let turn = turn_at(wheel, path, at);
        if turn == one {
            return Some(at);
        }
        if turn != two {
            return None;
        }
    }
    None
}

/// The side that makes a quad with a side.
fn partner_of(wheel: &Wheel, side: u32) -> u32
    requires quads { HasQuads wheel.now }
    requires side { side < length wheel.now }
    ensures quad { is_quad wheel.now side result ≡ true }
    ensures back { is_quad wheel.now result side ≡ true }
{
    let degree = wheel.degree();
    let place = wheel.place(Spoke(side));
    let next = wheel.spoke_at(difference(degree, place, 1));
    difference(degree, next.0, 1)
}

/// Two neighbours that are the other way round a quad.
#[derive(Clone, Copy)]
pub(crate) struct OtherWay {
    pub(crate) first: u32,
    pub(crate) second: u32,
    pub(crate) side: u32,
    pub(crate) partner: u32,
}

/// The other way round the quad of two neighbours. The turn between them is 1 where the step goes down, and -1 where
/// it goes up.
fn other_way(wheel: &Wheel, from_vertex: bool, up: bool, first: u32, second: u32) -> OtherWay
    requires quads { HasQuads wheel.now }
    requires first { first < length wheel.now }
    requires second { second < length wheel.now }
    requires turn { add (length wheel.now) (place_round wheel.now (not from_vertex) second)
        (minus (length wheel.now) (place_round wheel.now (not from_vertex) first))
        ≡ (if up then minus (length wheel.now) 1 else 1) }
    ensures wheel { IsWheel wheel.now }
    ensures quad { is_quad wheel.now result.side result.partner ≡ true }
    ensures ways { (if up then lower_way (length wheel.now) from_vertex result.side result.partner
        else upper_way (length wheel.now) from_vertex result.side result.partner) ≡ first ∷ second ∷ [] }
    ensures others { (if up then upper_way (length wheel.now) from_vertex result.side result.partner
        else lower_way (length wheel.now) from_vertex result.side result.partner) ≡ result.first ∷ result.second ∷ [] }
{
    let degree = wheel.degree();
    match (from_vertex, up) {
        (true, false) => {
            let partner = partner_of(wheel, first);
            OtherWay {
                first: next_number(degree, partner),
                second: partner,
                side: first,
                partner,
            }
        }
        (true, true) => {
            let side = partner_of(wheel, second);
            OtherWay {
                first: side,
                second: next_number(degree, side),
                side,
                partner: second,
            }
        }
        (false, false) => {
            let partner = partner_of(wheel, second);
            OtherWay {
                first: partner,
                second: next_number(degree, second),
                side: second,
                partner,
            }
        }
        (false, true) => {
            let side = partner_of(wheel, first);
            OtherWay {
                first: next_number(degree, first),
                second: side,
                side,
                partner: first,
            }
        }
    }
}

/// Takes two neighbours the other way round their quad: down where the turn between them is 1, up where it is -1.
pub(crate) fn turn_over(wheel: &Wheel, path: &mut [u32], at: usize, up: bool) -> PathStep
    requires quads { HasQuads wheel.now }
    requires below { All (λ spoke. spoke < length wheel.now) path.old }
    requires within { at + 1 < length path.old }
    requires short { length path.old < 2 ^ 32 }
    requires turn { turn_of wheel.now path.old (at + 1) ≡ (if up then minus (length wheel.now) 1 else 1) }
    ensures below { All (λ spoke. spoke < length wheel.now) path.new }
    ensures turned { IsTurnedOver wheel.now at (if up then minus (length wheel.now) 1 else 1)
        (if up then 1 else minus (length wheel.now) 1) path.old path.new }
    ensures leads { (rest : List ℕ) →
        after_path_step wheel.now result (path.old ++ rest) ≡ Some (path.new ++ rest) }
{
    let (first, second) = (path[at], path[at + 1]);
    let way = other_way(wheel, at % 2 == 0, up, first, second);
    path[at] = way.first;
    path[at + 1] = way.second;
    PathStep::Turn {
        at: at as u32,
        side: way.side,
        partner: way.partner,
        up,
    }
}
