//! What holds of the darts of a surface, said of the definitions. A call of one of these functions does nothing; its
//! contract is the law.
ghost use Rattle.std.specs.Prelude.{◌≡◌, ◌<◌, ◌↔◌, ℕ, true, length};
ghost use Rattle.surf_model.specs.FaceLists.{face_at, is_edge};
ghost use Rattle.surf_model.specs.Darts.{IsSide, side_number};
ghost use Rattle.surf_model.specs.declared.edges.Side.{Side};
ghost use Rattle.halfedge_map.specs.OrientedMeshes.{OrientedMesh, IsOrientedSurface};
ghost use Rattle.halfedge_map.specs.DartMaps.{darts_of, face_of, origin_of, target_of, next_of, twin_of, edge_of};
ghost use Rattle.halfedge_map.specs.DartMaps.{start_corner_of, end_corner_of, dart_at_corner, IsDartOfSide, StartsAtCorner};
ghost use Rattle.halfedge_map.specs.RotationSystems.{rotations_of, IsRotationSystem, IsDartFrom, IsEdgeWithEnds, NamesAll};

/// The darts of a surface make a rotation system.
pub fn darts_make_a_rotation_system()
    ensures { (surface : OrientedMesh) → IsOrientedSurface surface → IsRotationSystem (rotations_of surface) }
{}

/// Each side is a dart, and each dart a side: in a kept face it runs as the side does, in a flipped one the other way.
pub fn darts_are_sides()
    ensures dart { (surface : OrientedMesh) (side : Side) → IsSide surface.mesh side
        → IsDartOfSide surface side (side_number surface.mesh side) }
    ensures side { (surface : OrientedMesh) (dart : ℕ) → dart < darts_of surface
        → (side : Side) × IsSide surface.mesh side × (side_number surface.mesh side ≡ dart) }
{}

/// Just one dart starts at each corner of a face. A dart starts at its start corner, and the next one at its end corner.
pub fn one_dart_starts_at_a_corner()
    ensures starts { (surface : OrientedMesh) (f corner : ℕ) → f < length surface.mesh.faces
        → corner < length (face_at surface.mesh f) → StartsAtCorner surface f corner (dart_at_corner surface f corner) }
    ensures own { (surface : OrientedMesh) (dart : ℕ) → dart < darts_of surface
        → dart_at_corner surface (face_of surface dart) (start_corner_of surface dart) ≡ dart }
    ensures next { (surface : OrientedMesh) (dart : ℕ) → dart < darts_of surface
        → dart_at_corner surface (face_of surface dart) (end_corner_of surface dart) ≡ next_of surface dart }
{}

/// Two vertices form an edge exactly where a dart leads from the one to the other. A dart ends where its twin starts, and
/// its edge in the table joins its ends.
pub fn darts_join_edges()
    ensures edge { (surface : OrientedMesh) (u v : ℕ) → IsOrientedSurface surface
        → (is_edge surface.mesh u v ≡ true) ↔ ((dart : ℕ) × IsDartFrom (rotations_of surface) u v dart) }
    ensures target { (surface : OrientedMesh) (dart : ℕ) → IsOrientedSurface surface → dart < darts_of surface
        → origin_of surface (twin_of surface dart) ≡ target_of surface dart }
    ensures ends { (surface : OrientedMesh) (dart : ℕ) → IsOrientedSurface surface → dart < darts_of surface
        → IsEdgeWithEnds surface (origin_of surface dart) (origin_of surface (twin_of surface dart)) (edge_of surface dart) }
{}

/// The origins of darts are the used vertices, their faces all faces, and their edges all edges of the table.
pub fn darts_name_all()
    ensures { (surface : OrientedMesh) → IsOrientedSurface surface → NamesAll surface }
{}
