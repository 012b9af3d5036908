//! What decides free homotopy on a surface that was cut into a polygon, said of the definitions. A call of one of these functions does
//! nothing; its contract is the law.
ghost use Rattle.std.specs.Prelude.{◌≡◌, ◌↔◌, ℕ, ◌≤◌, List};
ghost use Rattle.turn_words.specs.FormLaws.{led};
ghost use Rattle.flat_forms.specs.Vectors.{origin};
ghost use Rattle.flat_forms.specs.FlatStates.{flat_next};
ghost use Rattle.halfedge_map.specs.OrientedMeshes.{OrientedMesh, IsOrientedSurface};
ghost use Rattle.labellings.specs.QuadPaths.{quad_path};
ghost use Rattle.tree_cotree.specs.Splits.{SplitView, IsSplit};
ghost use Rattle.polygon_cut.specs.Polygons.{PolygonView, IsCutFrom};
ghost use Rattle.quad_system.specs.PolygonLabellings.{labelling_from};
ghost use Rattle.spoke_rings.specs.Rotations.{IsRotation};
ghost use Rattle.closed_walks.specs.FreeHomotopy.{IsClosedWalk, FreelyHomotopic};
ghost use Rattle.free_loops.specs.CyclicForms.{IsCyclicFormOf};

/// On a sphere, where nothing is left over, any two closed walks are freely homotopic.
pub fn closed_walks_on_a_sphere_are_freely_homotopic()
    ensures { (surface : OrientedMesh) (split : SplitView) (first second : List ℕ) → IsOrientedSurface surface
        → IsSplit surface split → split.genus ≡ 0 → IsClosedWalk surface.mesh first → IsClosedWalk surface.mesh second
        → FreelyHomotopic surface.mesh first second }
{}

/// What the plane decides. On a cut with four sides, two closed walks are freely homotopic exactly where their quad paths lead the form of
/// the degree 4 from the origin to one point of the plane.
pub fn freely_homotopic_where_the_points_are_one()
    ensures { (surface : OrientedMesh) (split : SplitView) (polygon : PolygonView) (first second : List ℕ)
        → IsOrientedSurface surface → IsSplit surface split → IsCutFrom surface split polygon → polygon.degree ≡ 4
        → IsClosedWalk surface.mesh first → IsClosedWalk surface.mesh second → FreelyHomotopic surface.mesh first second
        ↔ (led flat_next polygon.places origin (quad_path surface.mesh (labelling_from surface polygon) first)
        ≡ led flat_next polygon.places origin (quad_path surface.mesh (labelling_from surface polygon) second)) }
{}

/// What cyclic forms decide. On a cut with five sides at least, two closed walks are freely homotopic exactly where a cyclic form of the
/// first is a rotation of one of the second, whichever forms these are. Each closed walk has one, which `cyclic_form_of` finds.
pub fn freely_homotopic_where_the_forms_are_rotations()
    ensures { (surface : OrientedMesh) (split : SplitView) (polygon : PolygonView) (first second form other : List ℕ)
        → IsOrientedSurface surface → IsSplit surface split → IsCutFrom surface split polygon → 5 ≤ polygon.degree
        → IsClosedWalk surface.mesh first → IsClosedWalk surface.mesh second
        → IsCyclicFormOf surface.mesh (labelling_from surface polygon) first form
        → IsCyclicFormOf surface.mesh (labelling_from surface polygon) second other
        → FreelyHomotopic surface.mesh first second ↔ IsRotation form other }
{}
