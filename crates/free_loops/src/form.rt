//! The cyclic form of a closed walk.
ghost use Rattle.std.specs.Prelude.{◌<◌, ◌^◌, length, IfOk};
ghost use Rattle.surf_model.specs.Edges.{IsTableOf};
ghost use Rattle.surf_model.specs.Walks.{IsWalk};
ghost use Rattle.labellings.specs.GoodLabellings.{IsGood};
ghost use Rattle.spoke_rings.specs.CyclicWords.{IsFullWheel};
ghost use Rattle.free_loops.specs.CyclicForms.{IsCyclicFormOf};

use crate::spelling::spokes_of;
use labellings::{GoodLabelling, word_of};
use spoke_rings::cyclic_form;
use std::alloc::{AllocError, Global};
use surf_model::{Faces, Sides, Walk};
use turn_words::Word;

/// A cyclic form of a closed walk, under a good labelling whose wheel is full.
///
/// The canonical word of the walk is taken first, run by run, so that no walk takes more than about linear time.
pub fn cyclic_form_of(
    alloc: Global,
    faces: &Faces,
    sides: &Sides,
    good: &GoodLabelling,
    walk: &Walk,
) -> Result<Vec<u32>, AllocError>
    requires table { IsTableOf faces.now sides.now }
    requires good { IsGood faces.now good.now }
    requires full { IsFullWheel good.now.places }
    requires walk { IsWalk faces.now walk.now }
    ensures form { IfOk result (λ form. IsCyclicFormOf faces.now good.now walk.now form.items) }
    ensures short { IfOk result (λ form. length form.items < 2 ^ 32) }
{
    let Word::Turns(word) = word_of(alloc, faces, sides, good, walk)? else {
        unreachable!()
    };
    let spokes = spokes_of(alloc, good.wheel(), &word)?;
    let form = cyclic_form(alloc, good.wheel(), &spokes)?;
    Ok(form)
}
