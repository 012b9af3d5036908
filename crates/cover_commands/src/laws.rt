//! What is promised of the answers, said of the definitions. A call of one of these functions does nothing; its contract is the law.
ghost use Rattle.std.specs.Prelude.{◌≡◌, Bool, ℕ, List, Option, Ok};
ghost use Rattle.surf_io.specs.Files.{Files};
ghost use Rattle.surf_model.specs.FaceLists.{FaceList, HasFileSize};
ghost use Rattle.surf_model.specs.Surfaces.{IsClosedManifold};
ghost use Rattle.surf_model.specs.OrientableSurfaces.{IsOrientableSurface};
ghost use Rattle.off_reader.specs.OffTexts.{meaning_of};
ghost use Rattle.orientation_cover.specs.Turns.{cover_by};
ghost use Rattle.orientation_cover.specs.Ways.{AreWays};
ghost use Rattle.commands.specs.Checks.{Holds};
ghost use Rattle.commands.specs.Inputs.{SpellsMesh, SpellsPair};
ghost use Rattle.commands.specs.Outcomes.{AnswersTo};
ghost use Rattle.commands.specs.declared.status.Status.{Status};
ghost use Rattle.cover_commands.specs.MeshCover.{AreLiftsTold, lifted_walks, mesh_cover};

/// Where a file spells a closed manifold, and its cover is no larger than a mesh may be, the answer is a text that means the cover, and the
/// cover is an orientable closed surface.
pub fn text_means_the_cover()
    ensures { (held : Option Files) (name : List ℕ) (status : Status) (text : List ℕ) (mesh : FaceList) (bits : List Bool)
        → AnswersTo held (mesh_cover held name) status text → Holds held name (SpellsMesh mesh) → IsClosedManifold mesh
        → AreWays mesh bits → HasFileSize (cover_by mesh bits) → (status ≡ Status.Yes) × (meaning_of text ≡ Ok (cover_by mesh bits))
        × IsOrientableSurface (cover_by mesh bits) }
{}

/// Where a second file spells two walks with common ends, the answer is their lifts, two walks of the cover with common ends, which read
/// back as such where they are not too long for a walk file; or that the walks are different, which they are then.
pub fn lifts_are_told()
    ensures { (held : Option Files) (mesh_name walks_name : List ℕ) (status : Status) (text : List ℕ) (mesh : FaceList) (bits : List Bool)
        (first second : List ℕ) → AnswersTo held (lifted_walks held mesh_name walks_name) status text
        → Holds held mesh_name (SpellsMesh mesh) → Holds held walks_name (SpellsPair mesh first second) → IsClosedManifold mesh
        → AreWays mesh bits → AreLiftsTold mesh bits first second status text }
{}
