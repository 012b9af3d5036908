//! What holds of the rings of the set without edges, and of the set of all edges, said of the definitions. A call of one of
//! these functions does nothing; its contract is the law.
ghost use Rattle.std.specs.Prelude.{◌≡◌, ◌↔◌, ℕ, ◌<◌, true, false, length};
ghost use Rattle.halfedge_map.specs.Orbits.{IsReached};
ghost use Rattle.halfedge_map.specs.OrientedMeshes.{OrientedMesh, IsOrientedSurface};
ghost use Rattle.halfedge_map.specs.DartMaps.{darts_of, origin_of, face_of, used_vertices};
ghost use Rattle.halfedge_map.specs.RotationSystems.{rotations_of};
ghost use Rattle.tree_cotree.specs.RingViews.{RingView, rings_of};
ghost use Rattle.tree_cotree.specs.RingSets.{rings_of_set, HaveNoEdge, HaveEveryEdge};
ghost use Rattle.tree_cotree.specs.SpanningTrees.{after_dart};

/// The rings of the empty set go round the vertices, those of the set of all edges round the faces: one dart stands on the
/// ring of another exactly where they start at one vertex, or lie in one face.
pub fn rings_go_round_vertices_and_faces()
    ensures empty { (surface : OrientedMesh) (d e : ℕ) → IsOrientedSurface surface → d < darts_of surface → e < darts_of surface
        → IsReached (after_dart (rotations_of surface) (λ edge. false)) d e ↔ (origin_of surface d ≡ origin_of surface e) }
    ensures full { (surface : OrientedMesh) (d e : ℕ) → IsOrientedSurface surface → d < darts_of surface → e < darts_of surface
        → IsReached (after_dart (rotations_of surface) (λ edge. true)) d e ↔ (face_of surface d ≡ face_of surface e) }
{}

/// The rings of the empty set are as many as the used vertices, those of the set of all edges as many as the faces.
pub fn rings_number_vertices_and_faces()
    ensures empty { (surface : OrientedMesh) → IsOrientedSurface surface
        → rings_of_set (rotations_of surface) (λ edge. false) ≡ used_vertices surface }
    ensures full { (surface : OrientedMesh) → IsOrientedSurface surface
        → rings_of_set (rotations_of surface) (λ edge. true) ≡ length surface.mesh.faces }
{}

/// So are the rings that `Rings` keeps, while no edge is in the set, and while every one is.
pub fn kept_rings_number_vertices_and_faces()
    ensures empty { (surface : OrientedMesh) (rings : RingView) → IsOrientedSurface surface → HaveNoEdge surface rings
        → rings_of rings ≡ used_vertices surface }
    ensures full { (surface : OrientedMesh) (rings : RingView) → IsOrientedSurface surface → HaveEveryEdge surface rings
        → rings_of rings ≡ length surface.mesh.faces }
{}
