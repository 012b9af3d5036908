//! Numbers of faces or of edges.
ghost use Rattle.std.specs.Prelude.{◌≡◌, ◌<◌, length, slice_get, Some};

use std::marker::Model;

/// A number for each face, or for each edge.
#[derive(Debug, Drop)]
pub struct Numbers {
    numbers: Vec<i64>,
}

impl Model for Numbers {
    ghost use Rattle.std.specs.Prelude.{List, ℤ, length, ◌<◌, ◌^◌};

    ghost Value = { List ℤ };

    ghost view = { λ a. a.numbers.items };

    ghost invariant = { λ a. length a.numbers.items < 2 ^ 32 };
}

impl Numbers {
    ghost use Rattle.std.specs.Prelude.{◌≡◌, ◌<◌, ◌^◌, length, slice_get, Some};

    /// These numbers.
    pub(crate) fn of(numbers: Vec<i64>) -> Numbers
        requires { length numbers.items < 2 ^ 32 }
        ensures { result ≡ numbers.items }
    {
        Numbers { numbers }
    }

    /// How many there are.
    pub fn len(&self) -> u32
        ensures { result ≡ length self.now }
    {
        self.numbers.len() as u32
    }

    /// Number `k`, counted from 0.
    pub fn at(&self, k: u32) -> i64
        requires { k < length self.now }
        ensures { slice_get self.now k ≡ Some result }
    {
        self.numbers[k as usize]
    }
}
