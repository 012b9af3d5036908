//! Whether closed walks that lie in arrays are freely homotopic.
ghost use Rattle.compact_surfaces.specs.CompactSurfaces.{IsOrientableCompactSurface};
ghost use Rattle.homotopy_arrays.specs.Loops.{IsLoopAnswer};

use crate::answering::WalkAnswer;
use crate::pair::{Checked, WalkFault, check_closed};
use compact_surfaces::CompactSurface;
use free_loops::FreeAnswer;
use std::alloc::{AllocError, Global};

/// What is answered of a pair of closed walks.
#[derive(Clone, Copy, Debug, PartialEq, Eq)]
pub enum LoopAnswer {
    /// They are two closed walks of the surface, and moves and changes of the starting vertex lead from the first to the second.
    Freely,
    /// They are two closed walks of the surface, and none lead.
    NotFreely,
    /// They are not, for this fault.
    Faulty(WalkFault),
}

impl WalkAnswer for LoopAnswer {
    ghost On = { IsOrientableCompactSurface };

    ghost Is = { IsLoopAnswer };

    fn is_told_on(surface: &CompactSurface) -> bool {
        // The proof reads what holds of every compact surface.
        let _ = surface.sides();
        surface.is_orientable()
    }

    fn answer_walks(
        alloc: Global,
        surface: &mut CompactSurface,
        first: &[u32],
        second: &[u32],
    ) -> Result<LoopAnswer, AllocError> {
        let pair = match check_closed(alloc, surface.sides(), first, second)? {
            Checked::Pair(pair) => pair,
            Checked::Faulty(fault) => return Ok(LoopAnswer::Faulty(fault)),
        };
        match surface.decide_free(pair.at(0), pair.at(1))? {
            FreeAnswer::Freely => Ok(LoopAnswer::Freely),
            FreeAnswer::NotFreely => Ok(LoopAnswer::NotFreely),
        }
    }
}
