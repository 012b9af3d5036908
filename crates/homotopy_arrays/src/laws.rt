//! What holds of the definitions. A call of one of these functions does nothing; its contract is the law.
ghost use Rattle.std.specs.Prelude.{◌≡◌, ◌↔◌, ℕ, List, Ok};
ghost use Rattle.surf_model.specs.FaceLists.{FaceList};
ghost use Rattle.homotopy_arrays.specs.MeshArrays.{AreArraysOf, mesh_from_arrays};

/// Arrays are read as the mesh whose arrays they are, and refused where they are those of no mesh.
pub fn arrays_are_those_of_their_mesh()
    ensures { (mesh : FaceList) (vertices : ℕ) (sizes corners : List ℕ)
        → (mesh_from_arrays vertices sizes corners ≡ Ok mesh) ↔ AreArraysOf mesh vertices sizes corners }
{}
