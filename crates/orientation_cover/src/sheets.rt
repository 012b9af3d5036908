//! The two sheets over a mesh.
ghost use Rattle.std.specs.Prelude.{◌≡◌, ◌+◌, ◌<◌, ◌^◌, not, if◌then◌else◌};
ghost use Rattle.double_covers.specs.Covers.{over};

/// The number over a number below `count`: on the lower sheet itself, on the upper one behind all of the lower.
pub(crate) fn over(count: u32, upper: bool, number: u32) -> u32
    requires { count + number < 2 ^ 32 }
    ensures { result ≡ over count upper number }
{
    if upper { number + count } else { number }
}

/// Whether just one of two holds.
pub(crate) fn differ(a: bool, b: bool) -> bool
    ensures { result ≡ (if a then not b else b) }
{
    if a { !b } else { b }
}
