//! The cotree of a split as a tree over the faces.
ghost use Rattle.std.specs.Prelude.{◌≡◌, ◌<◌, true, false, Some, length, MatchOption};
ghost use Rattle.halfedge_map.specs.DartMaps.{darts_of};
ghost use Rattle.tree_cotree.specs.Splits.{below_edge};
ghost use Rattle.homology_deciding.specs.FaceTrees.{IsTree, IsUp, face_across};

use halfedge_map::Surface;
use surf_model::{DartName, EdgeName, FaceName, Side};
use tree_cotree::Split;

/// A surface with a split of it, whose cotree is a tree over the faces.
#[derive(Clone, Copy)]
pub(crate) struct FaceTree<'a> {
    pub(crate) surface: &'a Surface,
    pub(crate) split: &'a Split,
}

impl FaceTree<'_> {
    /// The dart in a face that leads to the face above, on the edge below which the face lies; none in the root.
    pub(crate) fn up(&self, face: FaceName) -> Option<DartName>
        requires tree { IsTree self.now }
        requires face { face.0 < length self.now.surface.now.mesh.faces }
        ensures { MatchOption result (face.0 ≡ self.now.split.now.root_face)
            (IsUp self.now.surface.now self.now.split.now face.0) }
    {
        let faces = self.surface.faces();
        for at in 0..faces.sides(face) {
            let dart = faces.dart(Side { face, at });
            if self.lies_below(face, self.surface.edge_of(dart)) {
                return Some(dart);
            }
        }
        None
    }

    /// Whether a face lies below an edge.
    fn lies_below(&self, face: FaceName, edge: EdgeName) -> bool
        requires { edge.0 < length self.now.split.now.children }
        ensures below { result ≡ true → below_edge self.now.split.now edge.0 ≡ Some face.0 }
        ensures other { result ≡ false → below_edge self.now.split.now edge.0 ≡ Some face.0 → ⊥ }
    {
        match self.split.child_face(edge) {
            Some(below) => below == face,
            None => false,
        }
    }

    /// The face to which a dart leads across its edge.
    pub(crate) fn above(&self, dart: DartName) -> FaceName
        requires { dart.0 < darts_of self.now.surface.now }
        ensures face { result.0 ≡ face_across self.now.surface.now dart.0 }
        ensures within { result.0 < length self.now.surface.now.mesh.faces }
    {
        self.surface.face_of(self.surface.twin(dart))
    }
}
