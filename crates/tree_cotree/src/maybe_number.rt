//! A number or none, in four bytes.
ghost use Rattle.std.specs.Prelude.{◌≡◌, ◌<◌, Some, None, is_some};
ghost use Rattle.std.specs.Option.{option_map};
ghost use Rattle.tree_cotree.specs.declared.maybe_number.TheConstants.{NO_NUMBER};

use std::marker::Model;
use surf_model::{DartName, FaceName};

/// The number that stands for none.
pub(crate) const NO_NUMBER: u32 = u32::MAX;

/// The number of a dart or of a face, or none. It takes half the memory of an `Option`.
#[derive(Clone, Copy, Debug)]
pub(crate) struct MaybeNumber {
    number: u32,
}

impl Model for MaybeNumber {
    ghost use Rattle.std.specs.Prelude.{Option, ℕ};
    ghost use Rattle.std.proofs.Common.{ap};
    ghost use Rattle.tree_cotree.specs.MaybeNumbers.{option_of_number, number_of_option, number_back};

    ghost Value = { Option ℕ };

    ghost view = { λ a. option_of_number a.number };

    ghost inverse = { λ o. record { number = number_of_option o } };

    ghost inverse_ok = { λ a h. ap (λ n. record { number = n }) (number_back a.number) };
}

impl MaybeNumber {
    /// No number.
    pub(crate) fn none() -> MaybeNumber
        ensures { result ≡ None }
    {
        MaybeNumber { number: NO_NUMBER }
    }

    /// This number.
    pub(crate) fn some(number: u32) -> MaybeNumber
        requires { number < NO_NUMBER }
        ensures { result ≡ Some number }
    {
        MaybeNumber { number }
    }

    /// Whether there is one.
    pub(crate) fn is_some(self) -> bool
        ensures { result ≡ is_some self }
    {
        self.number != NO_NUMBER
    }

    /// The dart of this number, if there is one.
    pub(crate) fn dart(self) -> Option<DartName>
        ensures { option_map (λ dart. dart.0) result ≡ self }
    {
        if self.number == NO_NUMBER {
            None
        } else {
            Some(DartName(self.number))
        }
    }

    /// The face of this number, if there is one.
    pub(crate) fn face(self) -> Option<FaceName>
        ensures { option_map (λ face. face.0) result ≡ self }
    {
        if self.number == NO_NUMBER {
            None
        } else {
            Some(FaceName(self.number))
        }
    }
}
