//! A double cover of a closed manifold is one, and the orientation cover of a closed surface without coherent signs is a surface.
//!
//! It is a matter of definitions. Over each side of the mesh lie two of the cover, which start on the two sheets: so an edge of the cover
//! has as many sides as the edge below it. And a step round a vertex of the mesh lies below a step round either of the two vertices over
//! it, so the corners there hang together as they do below. If the two vertices over one were not joined, the sheets of those vertices
//! that are joined to the lower of them would tell coherent signs.
//!
//! The cover has twice the vertices, edges and faces of the mesh.
//!
//! docs/COVERS.md tells of covers with a drawing.
#![tactic(auto)]

pub mod laws;
