//! Why a move is refused.

/// Why a step is refused: the first of these reasons that holds.
#[derive(Clone, Copy, Debug, PartialEq, Eq)]
pub enum MoveFault {
    /// The walk does not reach so far: place `at` of an insertion lies behind its last entry, or
    /// entry `at + 2` of a removal or entry `at + taken` of a way round a face does.
    Place,
    /// The two vertices of an insertion form no edge of the mesh.
    NoEdge,
    /// The entries that a removal names are no spur to its vertex.
    NotSpur,
    /// The mesh has no such face, the face has no such corner or fewer sides than are taken, or the
    /// entries of the walk do not read the face.
    NotOnFace,
    /// The move is allowed, and the walk that it gives has more darts than the peak.
    OverPeak,
}
