//! Labellings that were found to be good.
ghost use Rattle.std.specs.Prelude.{◌≡◌, [], ◌∷◌, IsTrue, MatchOption};
ghost use Rattle.surf_model.specs.FaceLists.{is_edge};
ghost use Rattle.surf_model.specs.Edges.{IsTableOf};
ghost use Rattle.labellings.specs.GoodLabellings.{IsGood};
ghost use Rattle.labellings.specs.QuadPaths.{spokes};

use crate::darts::spokes_between;
use crate::labelling::Labelling;
use std::marker::Model;
use surf_model::{Faces, Sides, Spoke, VertexName};
use turn_words::Wheel;

/// A labelling whose places make a wheel, and that wheel. `check_labelling` makes it of a labelling that is good for a
/// mesh.
#[derive(Debug, Drop)]
pub struct GoodLabelling {
    labelling: Labelling,
    wheel: Wheel,
}

impl Model for GoodLabelling {
    ghost use Rattle.std.specs.Prelude.{◌≡◌};
    ghost use Rattle.labellings.specs.Labellings.{LabellingView};

    ghost Value = { LabellingView };

    ghost view = { λ a. a.labelling };

    ghost invariant = { λ a. a.wheel ≡ a.labelling.places };
}

impl GoodLabelling {
    /// The labelling with the wheel of its places. Whether it is good for a mesh is for the caller to say.
    pub fn from_parts(labelling: Labelling, wheel: Wheel) -> GoodLabelling
        requires { wheel ≡ labelling.places }
        ensures { result ≡ labelling }
    {
        GoodLabelling { labelling, wheel }
    }

    /// The labelling.
    pub fn labelling(&self) -> &Labelling
        ensures { result.now ≡ self.now }
    {
        &self.labelling
    }

    /// The wheel of its places.
    pub fn wheel(&self) -> &Wheel
        ensures { result.now ≡ self.now.places }
    {
        &self.wheel
    }

    /// The spokes of a dart: none by the tree rule, and else the label at its tail, whose spoke leads to the middle of the
    /// polygon, and the label at its head, whose spoke leads back.
    pub fn spokes(
        &self,
        faces: &Faces,
        sides: &Sides,
        from: VertexName,
        to: VertexName,
    ) -> Option<(Spoke, Spoke)>
        requires table { IsTableOf faces.now sides.now }
        requires good { IsGood faces.now self.now }
        requires edge { IsTrue (is_edge faces.now from.0 to.0) }
        ensures { MatchOption result (spokes faces.now self.now from.0 to.0 ≡ [])
            (λ pair. spokes faces.now self.now from.0 to.0 ≡ pair.0.0 ∷ pair.1.0 ∷ []) }
    {
        let Some(edge) = sides.between(from, to) else {
            return None;
        };
        spokes_between(faces, sides, &self.labelling, edge, from)
    }

    /// The labelling itself.
    pub fn into_labelling(self) -> Labelling
        ensures { result ≡ self }
    {
        let GoodLabelling {
            labelling,
            wheel: _,
        } = self;
        labelling
    }
}
