//! The codes by which calls tell how they ended. `homotopy.h` has them too.

/// The question is answered.
pub const DONE: u8 = 0;

/// The walks are homotopic.
pub const HOMOTOPIC: u8 = 1;

/// The walks are two walks of the surface with common ends, and are not homotopic.
pub const DIFFERENT: u8 = 2;

/// The certificate is accepted.
pub const ACCEPTED: u8 = 3;

/// The caller's array has too little room; the number is the length that is wanted.
pub const SHORT_ROOM: u8 = 4;

/// Memory was wanting.
pub const NO_MEMORY: u8 = 5;

/// The handle holds no mesh.
pub const NO_MESH: u8 = 6;

/// The walks are two closed walks of the surface, and are freely homotopic.
pub const FREELY_HOMOTOPIC: u8 = 7;

/// The walks are two closed walks of the surface, and are not freely homotopic.
pub const NOT_FREELY_HOMOTOPIC: u8 = 8;

/// The walks are homologous.
pub const HOMOLOGOUS: u8 = 9;

/// There are more vertices than a mesh may have.
pub const MANY_VERTICES: u8 = 10;

/// The sizes of the faces together are not the number of the corners.
pub const CORNER_COUNT: u8 = 11;

/// There are more corners than a mesh may have sides.
pub const MANY_SIDES: u8 = 12;

/// The face has fewer than three corners.
pub const FEW_CORNERS: u8 = 13;

/// The face names a vertex that there is not.
pub const CORNER_RANGE: u8 = 14;

/// Two neighbours round the face are one vertex.
pub const EQUAL_NEIGHBOURS: u8 = 15;

/// The walks are two walks of the surface with common ends, and are not homologous.
pub const NOT_HOMOLOGOUS: u8 = 16;

/// The mesh has no face.
pub const NO_FACE: u8 = 20;

/// An edge has another number of sides than two, or where the mesh may have boundary three or more: its lower and its higher vertex, and
/// that number.
pub const EDGE_SIDES: u8 = 21;

/// The corners at the vertex make no ring, nor a fan where the mesh may have boundary.
pub const PINCHED: u8 = 22;

/// The mesh is not orientable.
pub const NOT_ORIENTABLE: u8 = 23;

/// The mesh has boundary, and its double has more vertices than a mesh may have.
pub const DOUBLE_VERTICES: u8 = 24;

/// The mesh has boundary, and its double has more sides than a mesh may have.
pub const DOUBLE_SIDES: u8 = 25;

/// The mesh is not orientable, and the cover that answers for it has more vertices than a mesh may have.
pub const COVER_VERTICES: u8 = 26;

/// The mesh is not orientable, and the cover that answers for it has more sides than a mesh may have.
pub const COVER_SIDES: u8 = 27;

/// The sizes of the walks together are not the number of their vertices, or the walks are not two for each pair.
pub const WALK_COUNT: u8 = 30;

/// The walk has no vertex.
pub const EMPTY_WALK: u8 = 31;

/// The walk has more vertices than a walk may have.
pub const LONG_WALK: u8 = 32;

/// The entry of the walk at the place is no vertex that a face names.
pub const NO_VERTEX: u8 = 33;

/// The entry of the walk at the place and the one behind it form no edge.
pub const NO_EDGE: u8 = 34;

/// The walks start at different vertices.
pub const STARTS_DIFFER: u8 = 35;

/// The walks end at different vertices.
pub const ENDS_DIFFER: u8 = 36;

/// The walk does not end where it starts.
pub const OPEN_WALK: u8 = 37;

/// The certificate has more bytes than are read.
pub const LONG_CERTIFICATE: u8 = 40;

/// The certificate has no line with words.
pub const NO_HEAD: u8 = 41;

/// The line of the certificate is not of the form that its place asks for.
pub const BAD_LINE: u8 = 42;

/// The certificate ends before all lines came; the line is the one behind its last.
pub const ENDED_EARLY: u8 = 43;

/// The line of the certificate stands behind the last one.
pub const EXTRA_LINE: u8 = 44;

/// The peak in the head of the certificate, on that line, is too large.
pub const LARGE_PEAK: u8 = 45;

/// The answer that numbers are to show is none that they can show, neither `HOMOLOGOUS` nor `NOT_HOMOLOGOUS`.
pub const UNKNOWN_ANSWER: u8 = 46;

/// Rejected: the first walk has more darts than the peak.
pub const REJECTED_PEAK: u8 = 50;

/// Rejected: the walk does not reach so far as the move says.
pub const REJECTED_MOVE_PLACE: u8 = 51;

/// Rejected: the two vertices of the move form no edge.
pub const REJECTED_MOVE_EDGE: u8 = 52;

/// Rejected: the entries that the move names are no spur.
pub const REJECTED_MOVE_SPUR: u8 = 53;

/// Rejected: the entries that the move names do not read the face.
pub const REJECTED_MOVE_FACE: u8 = 54;

/// Rejected: the walk that the move gives has more darts than the peak.
pub const REJECTED_MOVE_PEAK: u8 = 55;

/// Rejected: the moves lead to another walk than the second.
pub const REJECTED_END: u8 = 56;

/// Rejected: the labels are too few or too many, or too large.
pub const REJECTED_SHAPE: u8 = 57;

/// Rejected: a labelling of this degree is not good.
pub const REJECTED_DEGREE: u8 = 58;

/// Rejected: two spokes have this place.
pub const REJECTED_PLACE: u8 = 59;

/// Rejected: the labels at the edge from the lower to the higher vertex meet no rule.
pub const REJECTED_EDGE: u8 = 60;

/// Rejected: the word of this walk is another one.
pub const REJECTED_WORD: u8 = 61;

/// Rejected: both words are right, and are equal.
pub const REJECTED_EQUAL: u8 = 62;

/// Rejected: there is not a number for each face, or of a cocycle for each side.
pub const REJECTED_COUNT: u8 = 63;

/// Rejected: the number at the place is too large in size.
pub const REJECTED_LARGE: u8 = 64;

/// Rejected: two sides of one edge have numbers that do not agree.
pub const REJECTED_UNEVEN: u8 = 65;

/// Rejected: at the edge from the lower to the higher vertex the boundary of the chain is not the difference of the counts.
pub const REJECTED_BOUNDARY: u8 = 66;

/// Rejected: round the face the numbers of the cocycle do not add up to 0.
pub const REJECTED_SUM: u8 = 67;

/// Rejected: the cocycle adds up to the same along both walks.
pub const REJECTED_ZERO: u8 = 68;

/// The surface has more sides than a certificate is made on, and their number.
pub const CERTIFY_SIDES: u8 = 70;

/// The walks together have more darts than a certificate is made for, and their number.
pub const CERTIFY_DARTS: u8 = 71;

/// The walks together have more darts than are counted for homology, and their number.
pub const HOMOLOGY_DARTS: u8 = 72;
