//! What the calls tell, said of their definitions. A call of one of these functions does nothing; its contract is the law. Each of
//! `homotopy_surface`, `homotopy_decide`, `homotopy_decide_any`, `homotopy_mesh_new`, `homotopy_mesh_new_any`, `homotopy_mesh_decide`,
//! `homotopy_mesh_loops`, `homotopy_mesh_classes`, `homotopy_certify`, `homotopy_verify`, `homotopy_homology`, `homotopy_homology_any` and
//! `homotopy_verify_homology` ensures the record that its law takes as a premise; `Ok mesh` there says that the arrays are a mesh, and
//! `Some mesh` that the handle holds it.
ghost use Rattle.std.specs.Prelude.{◌≡◌, ◌≢◌, ◌⊎◌, ◌↔◌, ◌*◌, ◌+◌, ◌/◌, ◌<◌, ◌≤◌, ℕ, ℤ, List, length, take, slice_index, IsTrue, Option, Some, Result, Ok};
ghost use Rattle.surf_model.specs.FaceLists.{FaceList, IsFaceList, HasFileSize};
ghost use Rattle.surf_model.specs.OrientableSurfaces.{IsOrientableSurface};
ghost use Rattle.surf_model.specs.Surfaces.{IsOrientable};
ghost use Rattle.commands.specs.Inputs.{SpellsCertificate};
ghost use Rattle.commands.specs.declared.certificate.Certificate.{Certificate};
ghost use Rattle.commands.specs.declared.inputs.TheConstants.{MOST_BYTES};
ghost use Rattle.compact_surfaces.specs.CompactSurfaces.{IsCompactSurface, IsOrientableCompactSurface};
ghost use Rattle.walk_classes.specs.WalkClasses.{AreClasses, AreInOneClass};
ghost use Rattle.homology.specs.Chains.{AreHomologous};
ghost use Rattle.homotopy_arrays.specs.Classes.{walks_in_arrays};
ghost use Rattle.homotopy_arrays.specs.Pairs.{AreWalks, walk_in_arrays};
ghost use Rattle.homotopy_arrays.specs.declared.fault.Fault.{Fault};
ghost use Rattle.homotopy_c.specs.Certified.{IsCertifyCall};
ghost use Rattle.homotopy_c.specs.Homologous.{IsHomologyAnyCall, IsHomologyCall};
ghost use Rattle.homotopy_c.specs.Judged.{IsVerifyCall};
ghost use Rattle.homotopy_c.specs.Kept.{IsMeshClassesCall, IsMeshDecideCall, IsMeshLoopsCall, IsMeshNewAnyCall, IsMeshNewCall};
ghost use Rattle.homotopy_c.specs.Meanings.{DoesAnswer, DoesAnswerLoops, DoesMeasure, CertificateHolds, IsAcceptedChain, IsAcceptedCocycle, ShowsDifferent, ShowsHomologous, ShowsHomologousOn, ShowsHomotopic, ShowsNotHomologous, ShowsNotHomologousOn, are_distinct, all_codes};
ghost use Rattle.homotopy_c.specs.NumbersJudged.{IsVerifyHomologyCall};
ghost use Rattle.homotopy_c.specs.Told.{IsDecideAnyCall, IsDecideCall, IsSurfaceTold};
ghost use Rattle.homotopy_c.specs.declared.codes.TheConstants as codes;
ghost use Rattle.homotopy_c.specs.declared.outcome.Outcome.{Outcome};
ghost use Rattle.homotopy_c.specs.declared.surface.SurfaceNumbers.{SurfaceNumbers};

/// No two codes are one number.
pub fn codes_differ()
    ensures { IsTrue (are_distinct all_codes) }
{}

/// `homotopy_surface` answers of orientable closed surfaces alone, with their numbers and genera; where it does not answer, no genus is
/// written.
pub fn surface_tells_the_numbers()
    ensures answers { (mesh : FaceList) (before numbers : SurfaceNumbers) (old genera : List ℕ) (outcome : Outcome)
        → IsSurfaceTold (Ok mesh) before numbers old genera outcome → outcome.code ≡ codes.DONE → DoesMeasure mesh numbers old genera }
    ensures else_nothing { (mesh : FaceList) (before numbers : SurfaceNumbers) (old genera : List ℕ) (outcome : Outcome)
        → IsSurfaceTold (Ok mesh) before numbers old genera outcome → outcome.code ≢ codes.DONE → genera ≡ old }
{}

/// `homotopy_decide` answers of orientable closed surfaces alone. The byte of a pair is `HOMOTOPIC` exactly where it is two walks of the
/// surface with common ends of which some list of moves leads from the first to the second, and `DIFFERENT` exactly where it is such walks
/// and none does; where it does not answer, nothing is written.
pub fn decide_tells_what_is_homotopic()
    ensures answers { (mesh : FaceList) (sizes vertices old answers : List ℕ) (outcome : Outcome)
        → IsDecideCall (Ok mesh) sizes vertices old answers outcome → outcome.code ≡ codes.DONE
        → IsOrientableSurface mesh × ((k : ℕ) → k < length sizes / 2
        → DoesAnswer mesh (walk_in_arrays sizes vertices (2 * k)) (walk_in_arrays sizes vertices (2 * k + 1)) (slice_index answers k)) }
    ensures else_nothing { (mesh : FaceList) (sizes vertices old answers : List ℕ) (outcome : Outcome)
        → IsDecideCall (Ok mesh) sizes vertices old answers outcome → outcome.code ≢ codes.DONE → answers ≡ old }
{}

/// `homotopy_decide_any` answers of compact surfaces alone, in one piece or in several, closed or with boundary, orientable or not. The
/// byte of a pair is `HOMOTOPIC` exactly where it is two walks of the mesh with common ends of which some list of moves leads from the
/// first to the second, and `DIFFERENT` exactly where it is such walks and none does; where it does not answer, nothing is written.
pub fn decide_any_tells_what_is_homotopic()
    ensures answers { (mesh : FaceList) (sizes vertices old answers : List ℕ) (outcome : Outcome)
        → IsDecideAnyCall (Ok mesh) sizes vertices old answers outcome → outcome.code ≡ codes.DONE
        → IsCompactSurface mesh × ((k : ℕ) → k < length sizes / 2
        → DoesAnswer mesh (walk_in_arrays sizes vertices (2 * k)) (walk_in_arrays sizes vertices (2 * k + 1)) (slice_index answers k)) }
    ensures else_nothing { (mesh : FaceList) (sizes vertices old answers : List ℕ) (outcome : Outcome)
        → IsDecideAnyCall (Ok mesh) sizes vertices old answers outcome → outcome.code ≢ codes.DONE → answers ≡ old }
{}

/// Of the mesh that a handle holds `homotopy_mesh_decide` tells what `homotopy_decide` tells of the arrays that `homotopy_mesh_new` was
/// handed, which keeps orientable closed surfaces alone; where that call does not answer, the handle holds what it held.
pub fn a_mesh_is_told_as_its_arrays()
    ensures answers { (read : Result FaceList Fault) (old held : Option FaceList) (made : Outcome) → IsMeshNewCall read old held made
        → made.code ≡ codes.DONE → (sizes vertices before answers : List ℕ) (outcome : Outcome)
        → IsMeshDecideCall held sizes vertices before answers outcome → IsDecideCall read sizes vertices before answers outcome }
    ensures surface { (mesh : FaceList) (old held : Option FaceList) (made : Outcome) → IsMeshNewCall (Ok mesh) old held made
        → made.code ≡ codes.DONE → (held ≡ Some mesh) × IsOrientableSurface mesh }
    ensures else_same { (read : Result FaceList Fault) (old held : Option FaceList) (made : Outcome) → IsMeshNewCall read old held made
        → made.code ≢ codes.DONE → held ≡ old }
{}

/// Of the mesh that a handle holds `homotopy_mesh_decide` tells what `homotopy_decide_any` tells of the arrays that `homotopy_mesh_new_any`
/// was handed, which keeps compact surfaces; where that call does not answer, the handle holds what it held.
pub fn any_mesh_is_told_as_its_arrays()
    ensures answers { (read : Result FaceList Fault) (old held : Option FaceList) (made : Outcome) → IsMeshNewAnyCall read old held made
        → made.code ≡ codes.DONE → (sizes vertices before answers : List ℕ) (outcome : Outcome)
        → IsMeshDecideCall held sizes vertices before answers outcome → IsDecideAnyCall read sizes vertices before answers outcome }
    ensures surface { (mesh : FaceList) (old held : Option FaceList) (made : Outcome) → IsMeshNewAnyCall (Ok mesh) old held made
        → made.code ≡ codes.DONE → (held ≡ Some mesh) × IsCompactSurface mesh }
    ensures else_same { (read : Result FaceList Fault) (old held : Option FaceList) (made : Outcome) → IsMeshNewAnyCall read old held made
        → made.code ≢ codes.DONE → held ≡ old }
{}

/// Of the mesh that a handle holds `homotopy_mesh_loops` writes a byte for each pair, where the mesh is orientable. The byte is
/// `FREELY_HOMOTOPIC` exactly where the pair is two closed walks of the surface and moves and changes of the starting vertex lead from the
/// first to the second, and `NOT_FREELY_HOMOTOPIC` exactly where it is such walks and none lead. Where it does not answer, nothing is
/// written; of a compact surface it tells `NOT_ORIENTABLE` only where that is not orientable. The surface is closed where
/// `homotopy_mesh_new` made the handle, by the clause `surface` of `a_mesh_is_told_as_its_arrays`.
pub fn loops_tell_what_is_freely_homotopic()
    ensures answers { (mesh : FaceList) (sizes vertices old answers : List ℕ) (outcome : Outcome)
        → IsMeshLoopsCall (Some mesh) sizes vertices old answers outcome → outcome.code ≡ codes.DONE
        → IsOrientableCompactSurface mesh × ((k : ℕ) → k < length sizes / 2
        → DoesAnswerLoops mesh (walk_in_arrays sizes vertices (2 * k)) (walk_in_arrays sizes vertices (2 * k + 1))
        (slice_index answers k)) }
    ensures refused { (mesh : FaceList) (sizes vertices old answers : List ℕ) (outcome : Outcome) → IsCompactSurface mesh
        → IsMeshLoopsCall (Some mesh) sizes vertices old answers outcome → outcome.code ≡ codes.NOT_ORIENTABLE → IsOrientable mesh → ⊥ }
    ensures else_nothing { (held : Option FaceList) (sizes vertices old answers : List ℕ) (outcome : Outcome)
        → IsMeshLoopsCall held sizes vertices old answers outcome → outcome.code ≢ codes.DONE → answers ≡ old }
{}

/// Of the mesh that a handle holds `homotopy_mesh_classes` writes a number for each walk, which are those of their classes: two are equal
/// exactly where the walks have common ends and some list of moves leads from the one to the other. Where it does not answer, nothing is
/// written. The surface is closed and orientable where `homotopy_mesh_new` made the handle, by the clause `surface` of
/// `a_mesh_is_told_as_its_arrays`.
pub fn classes_tell_what_is_homotopic()
    ensures answers { (mesh : FaceList) (sizes vertices old classes : List ℕ) (outcome : Outcome)
        → IsMeshClassesCall (Some mesh) sizes vertices old classes outcome → outcome.code ≡ codes.DONE
        → IsCompactSurface mesh × AreClasses mesh (walks_in_arrays sizes vertices) (take (length sizes) classes) }
    ensures alike { (mesh : FaceList) (sizes vertices old classes : List ℕ) (outcome : Outcome)
        → IsMeshClassesCall (Some mesh) sizes vertices old classes outcome → outcome.code ≡ codes.DONE
        → (i j : ℕ) → i < length sizes → j < length sizes → (slice_index classes i ≡ slice_index classes j)
        ↔ AreInOneClass mesh (walk_in_arrays sizes vertices i) (walk_in_arrays sizes vertices j) }
    ensures else_nothing { (held : Option FaceList) (sizes vertices old classes : List ℕ) (outcome : Outcome)
        → IsMeshClassesCall held sizes vertices old classes outcome → outcome.code ≢ codes.DONE → classes ≡ old }
{}

/// `homotopy_certify` tells `HOMOTOPIC` where some list of moves leads from the first walk to the second, `DIFFERENT` where none does, and
/// writes a text that shows it; where it does not answer, nothing is written.
pub fn certify_shows_what_is_homotopic()
    ensures homotopic { (mesh : FaceList) (first second old text : List ℕ) (outcome : Outcome)
        → IsCertifyCall (Ok mesh) first second old text outcome → outcome.code ≡ codes.HOMOTOPIC
        → ShowsHomotopic mesh first second old text outcome }
    ensures different { (mesh : FaceList) (first second old text : List ℕ) (outcome : Outcome)
        → IsCertifyCall (Ok mesh) first second old text outcome → outcome.code ≡ codes.DIFFERENT
        → ShowsDifferent mesh first second old text outcome }
    ensures else_nothing { (mesh : FaceList) (first second old text : List ℕ) (outcome : Outcome)
        → IsCertifyCall (Ok mesh) first second old text outcome → outcome.code ≢ codes.HOMOTOPIC → outcome.code ≢ codes.DIFFERENT
        → text ≡ old }
{}

/// `homotopy_verify` tells `ACCEPTED` exactly where the text spells a certificate that convinces, between two walks of the mesh with common
/// ends: a list of moves that leads within its peak, or a denial that holds. Memory may be wanting for it.
pub fn verify_accepts_what_convinces()
    ensures convinces { (mesh : FaceList) (first second text : List ℕ) (outcome : Outcome)
        → IsVerifyCall (Ok mesh) first second text outcome → outcome.code ≡ codes.ACCEPTED
        → AreWalks mesh first second × (shown : Certificate) × SpellsCertificate shown text × CertificateHolds mesh first second shown }
    ensures accepted { (mesh : FaceList) (first second text : List ℕ) (outcome : Outcome) (shown : Certificate)
        → IsVerifyCall (Ok mesh) first second text outcome → AreWalks mesh first second → length text ≤ MOST_BYTES
        → SpellsCertificate shown text → CertificateHolds mesh first second shown
        → (outcome.code ≡ codes.ACCEPTED) ⊎ (outcome.code ≡ codes.NO_MEMORY) }
{}

/// What `homotopy_certify` writes `homotopy_verify` accepts, of the same mesh and walks, where it is no more bytes than are read.
pub fn written_texts_are_accepted()
    ensures { (mesh : FaceList) (first second old text : List ℕ) (written judged : Outcome) → IsFaceList mesh → HasFileSize mesh
        → IsCertifyCall (Ok mesh) first second old text written
        → (written.code ≡ codes.HOMOTOPIC) ⊎ (written.code ≡ codes.DIFFERENT) → slice_index written.numbers 0 ≤ MOST_BYTES
        → IsVerifyCall (Ok mesh) first second (take (slice_index written.numbers 0) text) judged
        → (judged.code ≡ codes.ACCEPTED) ⊎ (judged.code ≡ codes.NO_MEMORY) }
{}

/// `homotopy_homology` tells `HOMOLOGOUS` where the two walks are homologous, and writes for each face its number in a chain for them. It
/// tells `NOT_HOMOLOGOUS` where they are not, and writes for each side what a cocycle gives it that separates them. Where it does not
/// answer, nothing is written.
pub fn homology_shows_what_is_homologous()
    ensures homologous { (mesh : FaceList) (first second : List ℕ) (old numbers : List ℤ) (outcome : Outcome)
        → IsHomologyCall (Ok mesh) first second old numbers outcome → outcome.code ≡ codes.HOMOLOGOUS
        → ShowsHomologous mesh first second old numbers outcome }
    ensures apart { (mesh : FaceList) (first second : List ℕ) (old numbers : List ℤ) (outcome : Outcome)
        → IsHomologyCall (Ok mesh) first second old numbers outcome → outcome.code ≡ codes.NOT_HOMOLOGOUS
        → ShowsNotHomologous mesh first second old numbers outcome }
    ensures else_nothing { (mesh : FaceList) (first second : List ℕ) (old numbers : List ℤ) (outcome : Outcome)
        → IsHomologyCall (Ok mesh) first second old numbers outcome → outcome.code ≢ codes.HOMOLOGOUS
        → outcome.code ≢ codes.NOT_HOMOLOGOUS → numbers ≡ old }
{}

/// `homotopy_homology_any` tells the same of orientable compact surfaces, in one piece or in several, closed or with boundary: `HOMOLOGOUS`
/// with a chain of the mesh where the two walks are homologous on it, and `NOT_HOMOLOGOUS` with a cocycle where they are not. Where it does
/// not answer, nothing is written.
pub fn homology_any_shows_what_is_homologous()
    ensures homologous { (mesh : FaceList) (first second : List ℕ) (old numbers : List ℤ) (outcome : Outcome)
        → IsHomologyAnyCall (Ok mesh) first second old numbers outcome → outcome.code ≡ codes.HOMOLOGOUS
        → ShowsHomologousOn IsOrientableCompactSurface mesh first second old numbers outcome }
    ensures apart { (mesh : FaceList) (first second : List ℕ) (old numbers : List ℤ) (outcome : Outcome)
        → IsHomologyAnyCall (Ok mesh) first second old numbers outcome → outcome.code ≡ codes.NOT_HOMOLOGOUS
        → ShowsNotHomologousOn IsOrientableCompactSurface mesh first second old numbers outcome }
    ensures else_nothing { (mesh : FaceList) (first second : List ℕ) (old numbers : List ℤ) (outcome : Outcome)
        → IsHomologyAnyCall (Ok mesh) first second old numbers outcome → outcome.code ≢ codes.HOMOLOGOUS
        → outcome.code ≢ codes.NOT_HOMOLOGOUS → numbers ≡ old }
{}

/// `homotopy_verify_homology` tells `ACCEPTED`, asked of `HOMOLOGOUS`, exactly where the numbers are a chain for two walks of the mesh with
/// common ends, which are homologous then; and asked of `NOT_HOMOLOGOUS` exactly where they are those of a cocycle that separates such
/// walks, which are not homologous then; and none is too large. Memory may be wanting for it. Asked of another answer it tells
/// `UNKNOWN_ANSWER`.
pub fn verify_homology_accepts_what_holds()
    ensures chain { (mesh : FaceList) (first second : List ℕ) (numbers : List ℤ) (outcome : Outcome)
        → IsVerifyHomologyCall (Ok mesh) first second codes.HOMOLOGOUS numbers outcome → outcome.code ≡ codes.ACCEPTED
        → IsAcceptedChain mesh first second numbers × AreHomologous mesh first second }
    ensures cocycle { (mesh : FaceList) (first second : List ℕ) (numbers : List ℤ) (outcome : Outcome)
        → IsVerifyHomologyCall (Ok mesh) first second codes.NOT_HOMOLOGOUS numbers outcome → outcome.code ≡ codes.ACCEPTED
        → IsAcceptedCocycle mesh first second numbers × (AreHomologous mesh first second → ⊥) }
    ensures chains { (mesh : FaceList) (first second : List ℕ) (numbers : List ℤ) (outcome : Outcome)
        → IsVerifyHomologyCall (Ok mesh) first second codes.HOMOLOGOUS numbers outcome → IsAcceptedChain mesh first second numbers
        → (outcome.code ≡ codes.ACCEPTED) ⊎ (outcome.code ≡ codes.NO_MEMORY) }
    ensures cocycles { (mesh : FaceList) (first second : List ℕ) (numbers : List ℤ) (outcome : Outcome)
        → IsVerifyHomologyCall (Ok mesh) first second codes.NOT_HOMOLOGOUS numbers outcome → IsAcceptedCocycle mesh first second numbers
        → (outcome.code ≡ codes.ACCEPTED) ⊎ (outcome.code ≡ codes.NO_MEMORY) }
    ensures else_none { (read : Result FaceList Fault) (first second : List ℕ) (answer : ℕ) (numbers : List ℤ) (outcome : Outcome)
        → IsVerifyHomologyCall read first second answer numbers outcome → answer ≢ codes.HOMOLOGOUS → answer ≢ codes.NOT_HOMOLOGOUS
        → outcome.code ≡ codes.UNKNOWN_ANSWER }
{}

/// What `homotopy_homology` writes `homotopy_verify_homology` accepts, of the same mesh, walks and answer.
pub fn written_numbers_are_accepted()
    ensures { (mesh : FaceList) (first second : List ℕ) (old numbers : List ℤ) (written judged : Outcome)
        → IsHomologyCall (Ok mesh) first second old numbers written
        → (written.code ≡ codes.HOMOLOGOUS) ⊎ (written.code ≡ codes.NOT_HOMOLOGOUS)
        → IsVerifyHomologyCall (Ok mesh) first second written.code (take (slice_index written.numbers 0) numbers) judged
        → (judged.code ≡ codes.ACCEPTED) ⊎ (judged.code ≡ codes.NO_MEMORY) }
{}
