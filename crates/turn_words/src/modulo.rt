//! Sums modulo a degree, of numbers below it.
ghost use Rattle.std.specs.Prelude.{◌≡◌, ◌<◌};
ghost use Rattle.turn_words.specs.Modulo.{add, minus};

/// The sum of two numbers below the degree.
pub(crate) fn sum_modulo(degree: u32, a: u32, b: u32) -> u32
    requires a_below { a < degree }
    requires b_below { b < degree }
    ensures sum { result ≡ add degree a b }
    ensures below { result < degree }
{
    let room = degree - a;
    if b < room { a + b } else { b - room }
}

/// What is added to a number in order to take `a` away.
pub(crate) fn negative_modulo(degree: u32, a: u32) -> u32
    requires { a < degree }
    ensures negative { result ≡ minus degree a }
    ensures below { result < degree }
{
    if a == 0 { 0 } else { degree - a }
}
