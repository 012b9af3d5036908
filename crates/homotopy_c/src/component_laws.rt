//! What `homotopy_components` tells, said of its definitions. A call of this function does nothing; its contract is the law.
ghost use Rattle.std.specs.Prelude.{◌≡◌, ◌≢◌, ◌↔◌, ◌<◌, ℕ, List, false, slice_index, IsTrue, Ok, Result};
ghost use Rattle.surf_model.specs.FaceLists.{FaceList, is_used};
ghost use Rattle.surf_model.specs.Surfaces.{AreJoinedByWalk};
ghost use Rattle.homotopy_arrays.specs.declared.components.ComponentNumbers.{ComponentNumbers};
ghost use Rattle.homotopy_arrays.specs.declared.fault.Fault.{Fault};
ghost use Rattle.homotopy_c.specs.ComponentsTold.{DoesTellComponents, IsComponentsCall};
ghost use Rattle.homotopy_c.specs.declared.codes.TheConstants as codes;
ghost use Rattle.homotopy_c.specs.declared.outcome.Outcome.{Outcome};

/// `homotopy_components`, which ensures the record that is taken as a premise, answers of orientable closed surfaces alone, with their
/// components. The numbers of two vertices that faces name are equal exactly where a walk joins the two; that of a vertex which no face
/// names is the number of components. Where it does not answer, nothing is written.
pub fn components_tell_what_is_joined()
    ensures answers { (mesh : FaceList) (old components : List ComponentNumbers) (before places : List ℕ) (outcome : Outcome)
        → IsComponentsCall (Ok mesh) old components before places outcome → outcome.code ≡ codes.DONE
        → DoesTellComponents mesh old components before places outcome }
    ensures joined { (mesh : FaceList) (old components : List ComponentNumbers) (before places : List ℕ) (outcome : Outcome)
        → IsComponentsCall (Ok mesh) old components before places outcome → outcome.code ≡ codes.DONE
        → (u v : ℕ) → u < mesh.count → v < mesh.count → IsTrue (is_used mesh u) → IsTrue (is_used mesh v)
        → (slice_index places u ≡ slice_index places v) ↔ AreJoinedByWalk mesh u v }
    ensures unused { (mesh : FaceList) (old components : List ComponentNumbers) (before places : List ℕ) (outcome : Outcome)
        → IsComponentsCall (Ok mesh) old components before places outcome → outcome.code ≡ codes.DONE
        → (v : ℕ) → v < mesh.count → is_used mesh v ≡ false → slice_index places v ≡ slice_index outcome.numbers 0 }
    ensures else_nothing { (read : Result FaceList Fault) (old components : List ComponentNumbers) (before places : List ℕ)
        (outcome : Outcome) → IsComponentsCall read old components before places outcome → outcome.code ≢ codes.DONE
        → (components ≡ old) × (places ≡ before) }
{}
