//! What holds of good labellings, said of the definitions. A call of one of these functions does nothing; its
//! contract is the law.
ghost use Rattle.std.specs.Prelude.{◌≡◌, ℕ, List};
ghost use Rattle.surf_model.specs.FaceLists.{FaceList, IsFaceList};
ghost use Rattle.surf_model.specs.Walks.{IsWalk};
ghost use Rattle.surf_model.specs.Moves.{Homotopic};
ghost use Rattle.turn_words.specs.FormLaws.{led};
ghost use Rattle.labellings.specs.Labellings.{LabellingView};
ghost use Rattle.labellings.specs.GoodLabellings.{IsGood};
ghost use Rattle.labellings.specs.QuadPaths.{quad_path};
ghost use Rattle.labellings.specs.WalkWords.{IsWordOf};
ghost use Rattle.labellings.specs.Denials.{DenialHolds};
ghost use Rattle.labellings.specs.declared.denial.Denial.{Denial};
ghost use Rattle.turn_words.specs.declared.word.Word.{Word};

use turn_words::Form;

/// The fold law. Under a good labelling of any mesh, the spokes of two homotopic walks lead a state at the vertex to one
/// state, in every form whose states belong to the places of the labelling.
pub fn moves_keep_the_state<F: Form>()
    ensures { (mesh : FaceList) (labelling : LabellingView) (first second : List ℕ) (state : F.State) → IsFaceList mesh
        → IsGood mesh labelling → IsWalk mesh first → Homotopic mesh first second
        → F.Belongs labelling.places state → F.IsAtVertex state
        → led F.next labelling.places state (quad_path mesh labelling first)
        ≡ led F.next labelling.places state (quad_path mesh labelling second) }
{}

/// What words of walks tell. Under a good labelling of any mesh, a walk has one word, and homotopic walks have the same.
pub fn homotopic_walks_have_one_word()
    ensures { (mesh : FaceList) (labelling : LabellingView) (first second : List ℕ) (one other : Word) → IsFaceList mesh
        → IsGood mesh labelling → IsWalk mesh first → Homotopic mesh first second
        → IsWordOf mesh labelling first one → IsWordOf mesh labelling second other → one ≡ other }
{}

/// What a denial shows. Where it holds, no list of moves leads from the first walk to the second, on any mesh, whoever
/// made it.
pub fn no_list_of_moves_leads_where_a_denial_holds()
    ensures { (mesh : FaceList) (first second : List ℕ) (denial : Denial) → IsFaceList mesh → IsWalk mesh first
        → DenialHolds mesh first second denial → Homotopic mesh first second → ⊥ }
{}
