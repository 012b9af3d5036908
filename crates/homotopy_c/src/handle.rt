//! What C holds of a mesh that is kept.
ghost use Rattle.std.specs.Prelude.{◌≡◌, Option, None, Some, MatchOption};
ghost use Rattle.surf_model.specs.FaceLists.{FaceList};

use crate::loose::Loose;
use homotopy_arrays::KeptMesh;
use std::alloc::Global;
use std::marker::Model;
use std::ptr::null_mut;

/// Where a mesh that is kept lies, or null where there is none. Contracts see that mesh.
#[repr(C)]
#[derive(Drop)]
pub struct MeshHandle {
    at: *mut u8,
    pub ghost kept: { Option FaceList },
}

impl Model for MeshHandle {
    ghost use Rattle.std.specs.Prelude.{Option};
    ghost use Rattle.surf_model.specs.FaceLists.{FaceList};
    ghost use Rattle.homotopy_c.specs.Handles.{holds_at};

    ghost also_owns = { λ h. holds_at h.at h.kept };
}

// Another thread may ask of the mesh, or give it back.
unsafe impl Send for MeshHandle {}

impl MeshHandle {
    /// A handle of no mesh.
    pub(crate) fn none() -> MeshHandle
        ensures { result.kept ≡ None }
    {
        MeshHandle { at: null_mut() }
    }

    /// The handle of a mesh.
    pub(crate) fn of(kept: Box<KeptMesh>) -> MeshHandle
        ensures { result.kept ≡ Some kept.value }
    {
        MeshHandle::of_loose(Loose::of(kept))
    }

    /// The mesh that the handle holds, if any.
    pub(crate) fn into_kept(self, alloc: Global) -> Option<Box<KeptMesh>>
        ensures { MatchOption result (self.kept ≡ None) (λ kept. self.kept ≡ Some kept.value) }
    {
        Some(self.into_loose(alloc)?.into_box())
    }

    fn of_loose(kept: Loose<KeptMesh, Global>) -> MeshHandle
        ensures { result.kept ≡ Some kept.value }
    {
        let Loose { at, alloc: _ } = kept;
        MeshHandle { at: at as *mut u8 }
    }

    fn into_loose(self, alloc: Global) -> Option<Loose<KeptMesh, Global>>
        ensures { MatchOption result (self.kept ≡ None) (λ kept. self.kept ≡ Some kept.value) }
    {
        let MeshHandle { at } = self;
        if at.is_null() {
            return None;
        }
        Some(Loose {
            at: at as *mut KeptMesh,
            alloc,
        })
    }
}
