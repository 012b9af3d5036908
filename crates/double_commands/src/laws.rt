//! What is promised of the answer, said of the definitions. A call of one of these functions does nothing; its contract is the law.
ghost use Rattle.std.specs.Prelude.{◌≡◌, ◌↔◌, ℕ, List, Option, Ok};
ghost use Rattle.surf_io.specs.Files.{Files};
ghost use Rattle.surf_model.specs.FaceLists.{FaceList, HasFileSize};
ghost use Rattle.surf_model.specs.Surfaces.{IsClosed, IsOrientable};
ghost use Rattle.off_reader.specs.OffTexts.{meaning_of};
ghost use Rattle.free_forms.specs.OpenSurfaces.{IsOpenSurface};
ghost use Rattle.doubling.specs.Doubles.{double_of};
ghost use Rattle.commands.specs.Checks.{Holds};
ghost use Rattle.commands.specs.Inputs.{SpellsMesh};
ghost use Rattle.commands.specs.Outcomes.{AnswersTo};
ghost use Rattle.commands.specs.declared.status.Status.{Status};
ghost use Rattle.double_commands.specs.MeshDouble.{mesh_double};

/// Where a file spells a surface with boundary whose double is no larger than a mesh may be, the answer is a text that means the double.
pub fn text_means_the_double()
    ensures { (held : Option Files) (name : List ℕ) (status : Status) (text : List ℕ) (mesh : FaceList)
        → AnswersTo held (mesh_double held name) status text → Holds held name (SpellsMesh mesh) → IsOpenSurface mesh
        → HasFileSize (double_of mesh) → (status ≡ Status.Yes) × (meaning_of text ≡ Ok (double_of mesh)) }
{}

/// So what is written means a closed surface, orientable exactly where the surface with boundary is.
pub fn text_means_a_closed_surface()
    ensures { (held : Option Files) (name : List ℕ) (status : Status) (text : List ℕ) (mesh : FaceList)
        → AnswersTo held (mesh_double held name) status text → Holds held name (SpellsMesh mesh) → IsOpenSurface mesh
        → HasFileSize (double_of mesh)
        → (double : FaceList) × (meaning_of text ≡ Ok double) × IsClosed double × (IsOrientable double ↔ IsOrientable mesh) }
{}
