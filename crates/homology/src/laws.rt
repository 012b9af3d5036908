//! What holds of chains and cocycles, said of the definitions. A call of one of these functions does nothing; its
//! contract is the law.
ghost use Rattle.std.specs.Prelude.{◌≡◌, ◌↔◌, ◌<◌, ℕ, List, length, ℤ};
ghost use Rattle.surf_model.specs.FaceLists.{FaceList};
ghost use Rattle.surf_model.specs.Edges.{Edge, IsTableOf};
ghost use Rattle.surf_model.specs.Walks.{IsWalk};
ghost use Rattle.surf_model.specs.Moves.{Leads, Homotopic};
ghost use Rattle.surf_model.specs.declared.moves.Move.{Move};
ghost use Rattle.homology.specs.Chains.{IsChain, AreHomologous, net_crossings};
ghost use Rattle.homology.specs.Cocycles.{IsCocycle, Separates, separation, edge_sum};
ghost use Rattle.homology.specs.ArrayCertificates.{AreChainNumbers, AreCocycleNumbers};
ghost use Rattle.homology.specs.ArrayVerdicts.{IsArrayChainVerdict, IsArrayCocycleVerdict};
ghost use Rattle.homology.specs.Tallies.{AreNumbersWithin};
ghost use Rattle.homology.specs.declared.array_check.ArrayVerdict.{ArrayVerdict};
ghost use Rattle.homology.specs.declared.array_check.ArrayVerdict.TheVariants.{Judged};
ghost use Rattle.homology.specs.declared.certificate.TheConstants.{MOST_NUMBER};
ghost use Rattle.homology.specs.declared.verdict.HomologyVerdict.TheVariants.{Accepted};

/// Homotopic walks are homologous, on every face list. The chain counts the faces of the list of moves, each as often as
/// it is crossed forward, less how often backward.
pub fn homotopic_walks_are_homologous()
    ensures chain { (mesh : FaceList) (first second : List ℕ) (moves : List Move) → 0 < length first
        → Leads mesh first moves second → IsChain mesh (net_crossings moves) first second }
    ensures walks { (mesh : FaceList) (first second : List ℕ) → IsWalk mesh first → Homotopic mesh first second
        → AreHomologous mesh first second }
{}

/// What a cocycle shows. Where it separates two walks they have no chain, on every face list, whoever made it.
pub fn no_chain_where_a_cocycle_separates()
    ensures { (mesh : FaceList) (of_edge : ℕ → ℕ → ℤ) (first second : List ℕ) → IsWalk mesh first → IsWalk mesh second
        → IsCocycle mesh of_edge → Separates of_edge first second → AreHomologous mesh first second → ⊥ }
{}

/// What a cocycle adds up to along the one walk less what it adds up to along the other is the sum, over all edges, of its number
/// times how much more the first walk counts there than the second.
pub fn separation_is_a_sum_over_edges()
    ensures { (mesh : FaceList) (table : List Edge) (of_edge : ℕ → ℕ → ℤ) (first second : List ℕ) → IsTableOf mesh table
        → IsWalk mesh first → IsWalk mesh second → edge_sum table of_edge first second ≡ separation of_edge first second }
{}

/// What is accepted of an array: numbers of the faces that are a chain for the walks, or numbers of the sides that are those of a cocycle
/// that separates them, where none is larger in size than `MOST_NUMBER`; and all of these.
pub fn arrays_are_accepted_where_they_hold()
    ensures chain { (mesh : FaceList) (first second : List ℕ) (numbers : List ℤ) (verdict : ArrayVerdict)
        → IsArrayChainVerdict mesh first second numbers verdict
        → (verdict ≡ Judged Accepted) ↔ (AreChainNumbers mesh first second numbers × AreNumbersWithin MOST_NUMBER numbers) }
    ensures cocycle { (mesh : FaceList) (first second : List ℕ) (numbers : List ℤ) (verdict : ArrayVerdict)
        → IsArrayCocycleVerdict mesh first second numbers verdict
        → (verdict ≡ Judged Accepted) ↔ (AreCocycleNumbers mesh first second numbers × AreNumbersWithin MOST_NUMBER numbers) }
{}

/// What an array shows, on any mesh: where it is a chain for two walks they are homologous, and where it is a cocycle that separates them
/// they are not.
pub fn arrays_show_what_holds()
    ensures chain { (mesh : FaceList) (first second : List ℕ) (numbers : List ℤ) → AreChainNumbers mesh first second numbers
        → AreHomologous mesh first second }
    ensures cocycle { (mesh : FaceList) (first second : List ℕ) (numbers : List ℤ) → IsWalk mesh first → IsWalk mesh second
        → AreCocycleNumbers mesh first second numbers → AreHomologous mesh first second → ⊥ }
{}
