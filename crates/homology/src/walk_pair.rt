//! Two walks that are compared.
ghost use Rattle.surf_model.specs.Walks.{IsWalk};

use surf_model::{Faces, Sides, Walk};

/// Two walks on a mesh with the table of its edges, of which a certificate is to show whether they are homologous.
#[derive(Clone, Copy, Debug)]
pub(crate) struct WalkPair<'a> {
    pub(crate) faces: &'a Faces,
    pub(crate) sides: &'a Sides,
    pub(crate) first: &'a Walk,
    pub(crate) second: &'a Walk,
    ghost first_walk: { IsWalk faces.now first.now },
    ghost second_walk: { IsWalk faces.now second.now },
}
