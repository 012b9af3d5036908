//! What holds of all lists of moves and of all denials, and of the walks of every text.
ghost use Rattle.std.specs.Prelude.{◌≡◌, ℕ, ◌<◌, List, [], ◌∷◌, ◌++◌, length, codes, Some, Ok, All};
ghost use Rattle.text_scan.specs.Plain.{line_of};
ghost use Rattle.surf_model.specs.Moves.{PeakedMoves};
ghost use Rattle.walk_files.specs.MoveTexts.{list_text, FitsFormat};
ghost use Rattle.walk_files.specs.Certificates.{list_of_text};
ghost use Rattle.labellings.specs.declared.denial.Denial.{Denial};
ghost use Rattle.walk_files.specs.DenialTexts.{denial_text, ReadsBack};
ghost use Rattle.walk_files.specs.Denials.{denial_of_text};
ghost use Rattle.walk_files.specs.WalkLists.{WalkText};
ghost use Rattle.walk_files.specs.WalkTexts.{walk_text_of};

/// What was written reads back as the list that it was.
pub fn written_lists_read_back()
    ensures { (list : PeakedMoves) → FitsFormat list → list_of_text (list_text list) ≡ Some (Ok list) }
{}

/// What was written reads back as the denial that it was, where its words are points exactly if its degree is 4.
pub fn written_denials_read_back()
    ensures { (denial : Denial) → ReadsBack denial → denial_of_text (denial_text denial) ≡ Some (Ok denial) }
{}

/// So it does behind the line of its answer.
pub fn answered_lists_read_back()
    ensures { (list : PeakedMoves) → FitsFormat list
        → list_of_text (line_of (codes "homotopic" ∷ []) ++ list_text list) ≡ Some (Ok list) }
{}

/// So it does behind the line of its answer.
pub fn answered_denials_read_back()
    ensures { (denial : Denial) → ReadsBack denial
        → denial_of_text (line_of (codes "different" ∷ []) ++ denial_text denial) ≡ Some (Ok denial) }
{}

/// Each walk that a text stands for has a vertex.
pub fn walks_of_texts_have_vertices()
    ensures { (bytes : List ℕ) (text : WalkText) → walk_text_of bytes ≡ Ok text → All (λ walk. 0 < length walk) text.walks }
{}
