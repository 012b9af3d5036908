//! What holds of the forms, said of the definitions. A call of one of these functions does nothing; its
//! contract is the law.
ghost use Rattle.std.specs.Prelude.{◌≡◌, ℕ, List};
ghost use Rattle.turn_words.specs.FormLaws.{led};
ghost use Rattle.flat_forms.specs.Vectors.{origin};
ghost use Rattle.flat_forms.specs.FlatStates.{flat_next};
ghost use Rattle.flat_forms.specs.Pairs.{spokes_of, sum_of_pairs};

/// Pairs of spokes lead from the start to the sum of their steps: that of the first spoke less that of the
/// second, for each pair.
pub fn pairs_of_spokes_lead_to_their_sum()
    ensures { (places : List ℕ) (pairs : List (ℕ × ℕ)) → led flat_next places origin (spokes_of pairs) ≡ sum_of_pairs pairs }
{}
