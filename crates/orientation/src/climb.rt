//! The odd chain round a tear.
ghost use Rattle.std.specs.Prelude.{◌≡◌, ◌+◌, ◌<◌, ◌^◌, ◌++◌, length, reverse, OnOk, IfOk};
ghost use Rattle.surf_model.specs.Edges.{IsTableOf};
ghost use Rattle.surf_model.specs.OddChains.{IsOddChain};
ghost use Rattle.orientation.specs.Classes.{EachEdgeHasAtMostTwoSides};
ghost use Rattle.orientation.specs.Trees.{AreTrees};
ghost use Rattle.orientation.specs.Searches.{IsTear};

use crate::across::link;
use crate::search::Tear;
use crate::trees::Trees;
use std::alloc::{AllocError, Global};
use surf_model::{ChainLink, Faces, OddChain, Sides};

/// The chain across a tear, up the tree from its one face to where the ways of both meet, and down to the other.
pub(crate) fn chain_round(
    alloc: Global,
    faces: &Faces,
    sides: &Sides,
    trees: &Trees,
    tear: Tear,
) -> Result<OddChain, AllocError>
    requires table { IsTableOf faces.now sides.now }
    requires two { EachEdgeHasAtMostTwoSides faces.now }
    requires trees { AreTrees faces.now trees.now }
    requires tear { IsTear faces.now trees.now tear }
    ensures { IfOk result (IsOddChain faces.now) }
{
    let mut chain = OddChain::start(alloc, link(faces, sides, tear.other.face, tear.side))?;
    // The links of the way down, the last one first.
    let mut down = Vec::new(alloc);
    let (mut face, mut other) = (tear.side.face, tear.other.face);
    while face != other {
        let (place, other_place) = (trees.place(face), trees.place(other));
        if place.depth >= other_place.depth {
            chain.push(link(faces, sides, face, place.from))?;
            face = place.from.face;
        } else {
            let from = other_place.from;
            down.push(link(faces, sides, from.face, from))?;
            other = from.face;
        }
    }
    push_reversed(&mut chain, down)?;
    Ok(chain)
}

/// Puts links last, the last one first.
fn push_reversed(chain: &mut OddChain, mut links: Vec<ChainLink>) -> Result<(), AllocError>
    requires { length chain.old + length links.items < 2 ^ 32 }
    ensures { OnOk result (chain.new ≡ chain.old ++ reverse links.items) }
{
    while let Some(last) = links.pop() {
        chain.push(last)?;
    }
    Ok(())
}
