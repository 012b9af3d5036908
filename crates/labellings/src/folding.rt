//! Folding: the spokes of a walk, put into a form one after another.
ghost use Rattle.std.specs.Prelude.{◌≡◌, ◌+◌, ◌*◌, ◌<◌, ◌≤◌, ⊤, ℕ, List, length, OnOk, IfSome};
ghost use Rattle.surf_model.specs.Edges.{IsTableOf};
ghost use Rattle.surf_model.specs.Walks.{darts, IsWalk};
ghost use Rattle.surf_model.specs.Moves.{Homotopic};
ghost use Rattle.turn_words.specs.FormLaws.{led, NotesAlong};
ghost use Rattle.turn_words.specs.Recorded.{TellsMore};
ghost use Rattle.labellings.specs.GoodLabellings.{IsGood};
ghost use Rattle.labellings.specs.QuadPaths.{quad_path};
ghost use Rattle.labellings.specs.Spokes.{spoke_list};

use crate::good::GoodLabelling;
use std::alloc::AllocError;
use surf_model::{Faces, Sides, Spoke, Walk};
use turn_words::{Form, Recorder, Wheel};

/// Puts the spokes of the darts of a walk into a form, in order. It is refused only for want of memory; after that the
/// form is restarted before it is used again.
pub fn fold<F: Form, R: Recorder>(
    faces: &Faces,
    sides: &Sides,
    good: &GoodLabelling,
    form: &mut F,
    walk: &Walk,
    recorder: &mut R,
) -> Result<(), AllocError>
    requires table { IsTableOf faces.now sides.now }
    requires good { IsGood faces.now good.now }
    requires walk { IsWalk faces.now walk.now }
    requires belongs { F.Belongs good.now.places (F.state form.old) }
    // A dart has two spokes at most.
    requires room { F.size (F.state form.old) + 2 * darts walk.now ≤ F.limit }
    ensures state { OnOk result (F.state form.new
        ≡ led F.next good.now.places (F.state form.old) (quad_path faces.now good.now walk.now)) }
    ensures belongs { OnOk result (F.Belongs good.now.places (F.state form.new)) }

    // Each walk that some list of moves leads to has the same spokes for the form.
    ensures homotopic { OnOk result ((other : List ℕ) → F.IsAtVertex (F.state form.old) → Homotopic faces.now walk.now other
        → F.state form.new ≡ led F.next good.now.places (F.state form.old) (quad_path faces.now good.now other)) }
    ensures notes { OnOk result (TellsMore
        (NotesAlong F.next F.Notes good.now.places (F.state form.old) (quad_path faces.now good.now walk.now))
        (R.noted recorder.old) (R.noted recorder.new)) }

    // Where memory runs out some of the steps may have been noted.
    ensures kept { TellsMore (λ _. ⊤) (R.noted recorder.old) (R.noted recorder.new) }
{
    // The proof reads what holds of every mesh.
    let _ = faces.len();
    for dart in 0..walk.darts() {
        let spokes = good.spokes(faces, sides, walk.at(dart), walk.at(dart + 1));
        put_spokes(good.wheel(), form, spokes, recorder)?;
    }
    Ok(())
}

/// Puts the spokes of one dart, if it has any, into a form.
pub fn put_spokes<F: Form, R: Recorder>(
    wheel: &Wheel,
    form: &mut F,
    spokes: Option<(Spoke, Spoke)>,
    recorder: &mut R,
) -> Result<(), AllocError>
    requires belongs { F.Belongs wheel.now (F.state form.old) }
    requires below { IfSome spokes (λ pair. (pair.0.0 < length wheel.now) × (pair.1.0 < length wheel.now)) }
    requires room { F.size (F.state form.old) + 2 ≤ F.limit }
    ensures state { OnOk result (F.state form.new ≡ led F.next wheel.now (F.state form.old) (spoke_list spokes)) }
    ensures belongs { OnOk result (F.Belongs wheel.now (F.state form.new)) }
    ensures size { OnOk result (F.size (F.state form.new) ≤ F.size (F.state form.old) + 2) }
    ensures notes { OnOk result (TellsMore (NotesAlong F.next F.Notes wheel.now (F.state form.old) (spoke_list spokes))
        (R.noted recorder.old) (R.noted recorder.new)) }
    ensures kept { TellsMore (λ _. ⊤) (R.noted recorder.old) (R.noted recorder.new) }
{
    let Some((there, back)) = spokes else {
        return Ok(());
    };
    form.act(wheel, there, recorder)?;
    form.act(wheel, back, recorder)
}
