//! What holds of classes of walks, said of the definitions. A call of one of these functions does nothing; its contract is the law.
ghost use Rattle.std.specs.Prelude.{◌≡◌, ◌↔◌, ◌<◌, ℕ, List, length, slice_index};
ghost use Rattle.surf_model.specs.FaceLists.{FaceList};
ghost use Rattle.surf_model.specs.Walks.{IsWalk, walk_at};
ghost use Rattle.walk_classes.specs.WalkClasses.{AreClasses, AreInOneClass};

/// Two numbers are equal exactly where their walks are in one class.
pub fn numbers_tell_classes()
    ensures { (mesh : FaceList) (walks : List (List ℕ)) (numbers : List ℕ) (i j : ℕ) → AreClasses mesh walks numbers
        → i < length walks → j < length walks
        → (slice_index numbers i ≡ slice_index numbers j) ↔ AreInOneClass mesh (walk_at walks i) (walk_at walks j) }
{}

/// To be in one class is an equivalence of the walks of a mesh.
pub fn classes_are_of_an_equivalence()
    ensures reflexive { (mesh : FaceList) (walk : List ℕ) → AreInOneClass mesh walk walk }
    ensures symmetric { (mesh : FaceList) (first second : List ℕ) → IsWalk mesh first → AreInOneClass mesh first second
        → AreInOneClass mesh second first }
    ensures transitive { (mesh : FaceList) (first second third : List ℕ) → AreInOneClass mesh first second
        → AreInOneClass mesh second third → AreInOneClass mesh first third }
{}

/// Numbers of classes are the only ones for their walks.
pub fn numbers_of_classes_are_unique()
    ensures { (mesh : FaceList) (walks : List (List ℕ)) (numbers others : List ℕ) → AreClasses mesh walks numbers
        → AreClasses mesh walks others → numbers ≡ others }
{}
