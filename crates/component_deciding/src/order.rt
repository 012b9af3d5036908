//! The order in which pairs are asked about.
ghost use Rattle.std.specs.Prelude.{length, IfOk};
ghost use Rattle.component_deciding.specs.Orders.{AreAllPairs};

use crate::pair_decider::PairDecider;
use std::alloc::{AllocError, Global};
use surf_model::VertexName;

/// A pair by its number, with the place of the component that is labelled for it; 0 where none is.
#[derive(Clone, Copy, Debug, PartialEq, Eq, PartialOrd, Ord, Drop)]
pub struct Placed {
    pub place: u32,
    pub pair: usize,
}

impl PairDecider {
    /// The order in which no component is labelled twice, for pairs whose first walks start at these vertices: component after component,
    /// and those of one component as they are listed. Pairs on spheres come first, as they are listed.
    pub fn order(&self, alloc: Global, starts: &[VertexName]) -> Result<Vec<Placed>, AllocError>
        ensures { IfOk result (λ order. AreAllPairs (length starts.now) order.items) }
    {
        let mut order = self.as_listed(alloc, starts)?;
        if let PairDecider::Whole(_) = self {
            return Ok(order);
        }
        order.sort()?;
        Ok(order)
    }

    /// The pairs as they are listed.
    fn as_listed(&self, alloc: Global, starts: &[VertexName]) -> Result<Vec<Placed>, AllocError>
        ensures { IfOk result (λ order. AreAllPairs (length starts.now) order.items) }
    {
        let mut order = Vec::with_capacity(alloc, starts.len())?;
        for pair in 0..starts.len() {
            let place = self.turn_of(starts[pair]);
            order.push(Placed { place, pair })?;
        }
        Ok(order)
    }

    /// The place of the component that is labelled for walks from a vertex; 0 where none is.
    fn turn_of(&self, vertex: VertexName) -> u32 {
        match self {
            PairDecider::Whole(_) => 0,
            PairDecider::Several(several) => several.turn_of(vertex),
        }
    }
}
