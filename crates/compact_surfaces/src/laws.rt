//! What holds of the definitions. A call of one of these functions does nothing; its contract is the law.
ghost use Rattle.std.specs.Prelude.{◌≡◌};
ghost use Rattle.surf_model.specs.FaceLists.{FaceList};
ghost use Rattle.compact_surfaces.specs.Faults.{IsFirstCompactFault};
ghost use Rattle.compact_surfaces.specs.declared.fault.CompactFault.{CompactFault};

/// A mesh has at most one first fault.
pub fn one_first_fault()
    ensures { (mesh : FaceList) (fault other : CompactFault) → IsFirstCompactFault mesh fault → IsFirstCompactFault mesh other
        → fault ≡ other }
{}
