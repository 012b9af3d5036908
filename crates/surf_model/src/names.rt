//! Numbers that name things, each thing with a type of its own. All counting starts at 0.

/// A vertex of a face list.
#[derive(Clone, Copy, Debug, PartialEq, Eq, PartialOrd, Ord)]
pub struct VertexName(pub u32);

/// A face, by its place in the face list.
#[derive(Clone, Copy, Debug, PartialEq, Eq, PartialOrd, Ord)]
pub struct FaceName(pub u32);

/// A dart (half-edge): one side of one face.
#[derive(Clone, Copy, Debug, PartialEq, Eq, PartialOrd, Ord)]
pub struct DartName(pub u32);

/// An edge, by its place among all edges ordered by their lower and then their higher end.
#[derive(Clone, Copy, Debug, PartialEq, Eq, PartialOrd, Ord)]
pub struct EdgeName(pub u32);

/// A spoke of a system of quads: a way from the one vertex to the middle of the polygon.
#[derive(Clone, Copy, Debug, PartialEq, Eq, PartialOrd, Ord)]
pub struct Spoke(pub u32);
