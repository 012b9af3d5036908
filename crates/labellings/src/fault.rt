//! Why a labelling is not good.
ghost use Rattle.std.specs.Prelude.{◌≡◌};

use std::alloc::AllocError;
use surf_model::VertexName;

/// The first rule of a good labelling that fails, with the least element at which it does.
#[derive(Clone, Copy, Debug, PartialEq, Eq)]
pub enum LabelFault {
    /// Faces, labels or places are too few or too many, or one of them is not below the degree.
    Shape,
    /// The degree is below 4, or it is 4 and the places do not rise by one.
    Degree { degree: u32 },
    /// Two spokes have this place.
    PlaceTwice { place: u32 },
    /// The edge has not exactly two sides that run oppositely, or their labels meet none of the three rules.
    EdgeRule { low: VertexName, high: VertexName },
    /// Memory ran out.
    OutOfMemory,
}

impl From<AllocError> for LabelFault {
    ghost use Rattle.std.specs.Prelude.{◌≡◌};
    ghost use Rattle.labellings.specs.declared.fault.LabelFault.TheVariants.{OutOfMemory};

    ghost from_gives = { λ _ fault. fault ≡ OutOfMemory };

    fn from(_error: AllocError) -> LabelFault {
        LabelFault::OutOfMemory
    }
}
