//! What the definitions of this crate say together. The functions do nothing.
ghost use Rattle.std.specs.Prelude.{◌≡◌};
ghost use Rattle.surf_model.specs.FaceLists.{FaceList, IsFaceList};
ghost use Rattle.surf_model.specs.Surfaces.{IsClosedManifold};
ghost use Rattle.manifold_check.specs.Faults.{IsFirstFault};
ghost use Rattle.manifold_check.specs.declared.fault.SurfaceFault.{SurfaceFault};

/// A face list has at most one first fault.
pub fn one_first_fault()
    ensures { (mesh : FaceList) (fault other : SurfaceFault) → IsFirstFault mesh fault → IsFirstFault mesh other → fault ≡ other }
{}

/// A closed manifold has none.
pub fn closed_without_fault()
    ensures { (mesh : FaceList) (fault : SurfaceFault) → IsClosedManifold mesh → IsFirstFault mesh fault → ⊥ }
{}

/// No face list is neither a closed manifold nor at fault.
pub fn closed_or_fault()
    ensures { (mesh : FaceList) → IsFaceList mesh → (IsClosedManifold mesh → ⊥)
        → ((fault : SurfaceFault) → IsFirstFault mesh fault → ⊥) → ⊥ }
{}
