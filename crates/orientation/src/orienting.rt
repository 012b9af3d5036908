//! Signs for the faces of a mesh.
ghost use Rattle.std.specs.Prelude.{◌≡◌, List, Err, IfOk};
ghost use Rattle.surf_model.specs.Edges.{IsTableOf};
ghost use Rattle.surf_model.specs.Surfaces.{IsCoherent, IsOrientable};
ghost use Rattle.surf_model.specs.declared.chains.ChainLink.{ChainLink};
ghost use Rattle.surf_model.specs.OddChains.{IsOddChain};
ghost use Rattle.orientation.specs.Classes.{EachEdgeHasAtMostTwoSides, IsLeastKept};

use crate::climb::chain_round;
use crate::fault::OrientFault;
use crate::listed::are_listed_coherently;
use crate::search::search;
use crate::waiting::Order;
use std::alloc::Global;
use surf_model::{Faces, Sides, Signs};

/// Coherent signs for the faces of a mesh, under which the least face of each class is kept. They are the only ones.
///
/// Where there are none, the mesh has an odd chain, and some such chain is given.
pub fn orient(alloc: Global, faces: &Faces, sides: &Sides) -> Result<Signs, OrientFault>
    requires table { IsTableOf faces.now sides.now }
    requires two { EachEdgeHasAtMostTwoSides faces.now }
    ensures coherent { IfOk result (IsCoherent faces.now) }
    ensures least_kept { IfOk result (IsLeastKept faces.now) }
    ensures odd_chain { (chain : List ChainLink) → result ≡ Err (OrientFault.NotOrientable chain) → IsOddChain faces.now chain }
    ensures not_orientable { (chain : List ChainLink) → result ≡ Err (OrientFault.NotOrientable chain) → IsOrientable faces.now → ⊥ }
{
    if are_listed_coherently(faces, sides) {
        return Ok(Signs::kept(alloc, faces.len())?);
    }
    let quick = search(alloc, faces, sides, Order::LastFound)?;
    if quick.tear.is_none() {
        return Ok(quick.trees.signs(alloc)?);
    }
    // The other order finds a tear too, and gives a short chain.
    let short = search(alloc, faces, sides, Order::FirstFound)?;
    match short.tear {
        Some(tear) => Err(OrientFault::NotOrientable {
            chain: chain_round(alloc, faces, sides, &short.trees, tear)?,
        }),
        None => Ok(short.trees.signs(alloc)?),
    }
}
