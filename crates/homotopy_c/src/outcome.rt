//! How a call ended, as C sees it.
ghost use Rattle.std.specs.Prelude.{◌≡◌, ℕ};
ghost use Rattle.homotopy_c.specs.Outcomes.{byte_of, coded, loop_byte, told_fault, told_walk, told_walks, walk_code};

use crate::codes;
use homotopy_arrays::{Fault, LoopAnswer, PairAnswer, WalkFault};
use walk_files::{LoopFault, PairFault};

/// A code, and the numbers that belong to it, 0 where there are fewer than three.
#[repr(C)]
#[derive(Clone, Copy, Debug, PartialEq, Eq)]
pub struct Outcome {
    pub code: u32,
    pub numbers: [u64; 3],
}

/// The outcome with this code and these numbers.
pub(crate) fn coded(code: u8, first: u64, second: u64, third: u64) -> Outcome
    ensures { result ≡ coded code first second third }
{
    Outcome {
        code: u32::from(code),
        numbers: [first, second, third],
    }
}

/// The outcome that a fault is.
pub(crate) fn told(fault: Fault) -> Outcome
    ensures { result ≡ told_fault fault }
{
    match fault {
        Fault::ManyVertices => coded(codes::MANY_VERTICES, 0, 0, 0),
        Fault::CornerCount => coded(codes::CORNER_COUNT, 0, 0, 0),
        Fault::ManySides => coded(codes::MANY_SIDES, 0, 0, 0),
        Fault::FewCorners { face } => coded(codes::FEW_CORNERS, u64::from(face.0), 0, 0),
        Fault::NoVertex { face } => coded(codes::CORNER_RANGE, u64::from(face.0), 0, 0),
        Fault::EqualNeighbours { face } => coded(codes::EQUAL_NEIGHBOURS, u64::from(face.0), 0, 0),
        Fault::NoFace => coded(codes::NO_FACE, 0, 0, 0),
        Fault::EdgeSides { low, high, sides } => coded(
            codes::EDGE_SIDES,
            u64::from(low.0),
            u64::from(high.0),
            u64::from(sides),
        ),
        Fault::Pinched { vertex } => coded(codes::PINCHED, u64::from(vertex.0), 0, 0),
        Fault::NotOrientable => coded(codes::NOT_ORIENTABLE, 0, 0, 0),
        Fault::DoubleVertices => coded(codes::DOUBLE_VERTICES, 0, 0, 0),
        Fault::DoubleSides => coded(codes::DOUBLE_SIDES, 0, 0, 0),
        Fault::CoverVertices => coded(codes::COVER_VERTICES, 0, 0, 0),
        Fault::CoverSides => coded(codes::COVER_SIDES, 0, 0, 0),
        Fault::WalkCount => coded(codes::WALK_COUNT, 0, 0, 0),
        Fault::OutOfMemory => coded(codes::NO_MEMORY, 0, 0, 0),
    }
}

/// The code of what is wrong with two walks.
pub(crate) fn walk_code(fault: WalkFault) -> u8
    ensures { result ≡ walk_code fault }
{
    match fault {
        WalkFault::Empty { .. } => codes::EMPTY_WALK,
        WalkFault::Long { .. } => codes::LONG_WALK,
        // It does not come, since the walks are two.
        WalkFault::Pair(PairFault::NotTwo { .. }) => codes::WALK_COUNT,
        WalkFault::Pair(PairFault::NoVertex { .. }) => codes::NO_VERTEX,
        WalkFault::Pair(PairFault::NoEdge { .. }) => codes::NO_EDGE,
        WalkFault::Pair(PairFault::EndsDiffer { at_start: true }) => codes::STARTS_DIFFER,
        WalkFault::Pair(PairFault::EndsDiffer { at_start: false }) => codes::ENDS_DIFFER,
        WalkFault::Loops(LoopFault::NotTwo { .. }) => codes::WALK_COUNT,
        WalkFault::Loops(LoopFault::NoVertex { .. }) => codes::NO_VERTEX,
        WalkFault::Loops(LoopFault::NoEdge { .. }) => codes::NO_EDGE,
        WalkFault::Loops(LoopFault::NotClosed { .. }) => codes::OPEN_WALK,
    }
}

/// The outcome that what is wrong with two walks is.
pub(crate) fn told_walks(fault: WalkFault) -> Outcome
    ensures { result ≡ told_walks fault }
{
    let code = walk_code(fault);
    match fault {
        WalkFault::Empty { walk } => coded(code, u64::from(walk), 0, 0),
        WalkFault::Long { walk } => coded(code, u64::from(walk), 0, 0),
        WalkFault::Pair(PairFault::NoVertex { walk, place }) => {
            coded(code, u64::from(walk), u64::from(place), 0)
        }
        WalkFault::Pair(PairFault::NoEdge { walk, place }) => {
            coded(code, u64::from(walk), u64::from(place), 0)
        }
        WalkFault::Pair(PairFault::NotTwo { .. }) => coded(code, 0, 0, 0),
        WalkFault::Pair(PairFault::EndsDiffer { .. }) => coded(code, 0, 0, 0),
        WalkFault::Loops(LoopFault::NotTwo { .. }) => coded(code, 0, 0, 0),
        WalkFault::Loops(LoopFault::NoVertex { walk, place }) => {
            coded(code, u64::from(walk), u64::from(place), 0)
        }
        WalkFault::Loops(LoopFault::NoEdge { walk, place }) => {
            coded(code, u64::from(walk), u64::from(place), 0)
        }
        WalkFault::Loops(LoopFault::NotClosed { walk }) => coded(code, u64::from(walk), 0, 0),
    }
}

/// The same of the walk with this number.
pub(crate) fn told_walk(number: u64, fault: WalkFault) -> Outcome
    ensures { result ≡ told_walk number fault }
{
    let told = told_walks(fault);
    Outcome {
        code: told.code,
        numbers: [number, told.numbers[1], 0],
    }
}

/// An answer on a pair, which is told by a byte.
pub(crate) trait HasByte {
    ghost code: { Self → ℕ };

    /// The byte.
    fn byte(self) -> u8
        ensures { result ≡ code self };
}

impl HasByte for PairAnswer {
    ghost code = { byte_of };

    fn byte(self) -> u8 {
        match self {
            PairAnswer::Homotopic => codes::HOMOTOPIC,
            PairAnswer::Different => codes::DIFFERENT,
            PairAnswer::Faulty(fault) => walk_code(fault),
        }
    }
}

impl HasByte for LoopAnswer {
    ghost code = { loop_byte };

    fn byte(self) -> u8 {
        match self {
            LoopAnswer::Freely => codes::FREELY_HOMOTOPIC,
            LoopAnswer::NotFreely => codes::NOT_FREELY_HOMOTOPIC,
            LoopAnswer::Faulty(fault) => walk_code(fault),
        }
    }
}
