//! What holds of widened labellings, said of the definitions. A call of one of these functions does nothing; its contract is
//! the law.
ghost use Rattle.std.specs.Prelude.{◌≡◌, ◌<◌, ◌↔◌, ℕ, Bool, List, length, slice_index};
ghost use Rattle.surf_model.specs.FaceLists.{FaceList, IsFaceList};
ghost use Rattle.surf_model.specs.Walks.{IsWalk};
ghost use Rattle.surf_model.specs.Surfaces.{IsClosedManifold, IsCoherent};
ghost use Rattle.surf_model.specs.ComponentParts.{PartsView, AreParts, component_at, component_mesh};
ghost use Rattle.surf_model.specs.Submeshes.{signs_among};
ghost use Rattle.turn_words.specs.declared.word.Word.{Word};
ghost use Rattle.labellings.specs.Labellings.{LabellingView, signs_of};
ghost use Rattle.labellings.specs.GoodLabellings.{IsGood};
ghost use Rattle.labellings.specs.WalkWords.{IsWordOf};
ghost use Rattle.widening.specs.Widened.{IsWidened};

/// Each good labelling of a component, widened, is good for the whole mesh.
pub fn widened_labelling_is_good()
    ensures { (mesh : FaceList) (parts : PartsView) (part : ℕ) (signs : List Bool) (narrow wide : LabellingView) → IsFaceList mesh
        → AreParts mesh parts → part < length parts.components → IsClosedManifold mesh → IsCoherent mesh signs
        → IsGood (component_mesh mesh parts part) narrow → signs_of narrow ≡ signs_among signs (component_at parts part)
        → IsWidened mesh signs (component_at parts part) narrow wide → IsGood mesh wide }
{}

/// And the walks of the component have the same words under it.
pub fn widened_labelling_keeps_words()
    ensures { (mesh : FaceList) (parts : PartsView) (part : ℕ) (signs : List Bool) (narrow wide : LabellingView) (walk : List ℕ)
        (word : Word) → IsFaceList mesh → AreParts mesh parts → part < length parts.components → IsClosedManifold mesh
        → IsCoherent mesh signs → IsGood (component_mesh mesh parts part) narrow
        → signs_of narrow ≡ signs_among signs (component_at parts part)
        → IsWidened mesh signs (component_at parts part) narrow wide → IsWalk mesh walk
        → slice_index parts.places (slice_index walk 0) ≡ part
        → IsWordOf mesh wide walk word ↔ IsWordOf (component_mesh mesh parts part) narrow walk word }
{}
