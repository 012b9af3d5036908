//! The classes of walks that lie in arrays.
ghost use Rattle.std.specs.Prelude.{◌≡◌, length, sum, IfOk, MatchResult};
ghost use Rattle.homotopy_arrays.specs.Classes.{AreClassesIn, AreCut, IsFirstNone, IsNoClassesIn};
ghost use Rattle.homotopy_arrays.specs.declared.classes.NoClasses.TheVariants.{OutOfMemory};

use crate::pair::{WalkFault, fault_of, length_fault, slice_at, walk_of};
use compact_surfaces::CompactSurface;
use std::alloc::{AllocError, Global};
use surf_model::Walk;
use walk_classes::ClassFault;

/// Why walks that lie in arrays have no classes.
#[derive(Clone, Copy, Debug, PartialEq, Eq)]
pub enum NoClasses {
    /// The sizes of the walks together are not the number of their vertices.
    Count,
    /// The first list, by its place, that is no walk of the surface; and what is first wrong with it, as walk 1.
    Walk { place: usize, fault: WalkFault },
    /// There is no memory for the classes.
    OutOfMemory,
}

impl From<AllocError> for NoClasses {
    ghost from_gives = { λ _ fault. fault ≡ OutOfMemory };

    fn from(_: AllocError) -> NoClasses {
        NoClasses::OutOfMemory
    }
}

/// The number of the class of each walk, on a compact surface; or the first list that is no walk.
pub(crate) fn classes_in(
    alloc: Global,
    surface: &mut CompactSurface,
    sizes: &[u32],
    vertices: &[u32],
) -> Result<Vec<usize>, NoClasses>
    requires { sum sizes.now ≡ length vertices.now }
    ensures same { surface.new ≡ surface.old }
    ensures ends { MatchResult result (λ given. AreClassesIn surface.old sizes.now vertices.now given.items)
        (IsNoClassesIn surface.old sizes.now vertices.now) }
{
    let walks = cut(alloc, sizes, vertices)?;
    match surface.classes(&walks) {
        Ok(given) => {
            if walks.len() == sizes.len() {
                return Ok(given);
            }
            Err(told_at(alloc, surface, sizes, vertices, walks.len()))
        }
        Err(ClassFault::NoWalk { place }) => Err(told_at(alloc, surface, sizes, vertices, place)),
        Err(ClassFault::OutOfMemory) => Err(NoClasses::OutOfMemory),
    }
}

/// The first list that is no walk, which is at this place, with what is first wrong with it.
fn told_at(
    alloc: Global,
    surface: &CompactSurface,
    sizes: &[u32],
    vertices: &[u32],
    place: usize,
) -> NoClasses
    requires sizes { sum sizes.now ≡ length vertices.now }
    requires none { IsFirstNone surface.now sizes.now vertices.now place }
    ensures { IsNoClassesIn surface.now sizes.now vertices.now result }
{
    let list = slice_at(sizes, vertices, place);
    match fault_of(alloc, surface, list, list) {
        Ok(fault) => NoClasses::Walk { place, fault },
        Err(_) => NoClasses::OutOfMemory,
    }
}

/// The walks, up to the first that has no vertex, or too many.
fn cut(alloc: Global, sizes: &[u32], vertices: &[u32]) -> Result<Vec<Walk>, AllocError>
    requires { sum sizes.now ≡ length vertices.now }
    ensures { IfOk result (λ walks. AreCut sizes.now vertices.now walks.items) }
{
    let mut walks = Vec::with_capacity(alloc, sizes.len())?;
    let mut at = 0;
    for place in 0..sizes.len() {
        let end = at + sizes[place] as usize;
        let list = &vertices[at..end];
        if let Some(_fault) = length_fault(1, list) {
            return Ok(walks);
        }
        let walk = walk_of(alloc, list)?;
        walks.push(walk)?;
        at = end;
    }
    Ok(walks)
}
