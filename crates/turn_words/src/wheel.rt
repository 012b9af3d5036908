//! The order of the spokes round the one vertex.
ghost use Rattle.std.specs.Prelude.{◌≡◌, ◌<◌, ◌≤◌, ◌^◌, ◌↔◌, length, slice_index, IfOk, MatchResult, MatchOption};
ghost use Rattle.turn_words.specs.SpokePaths.{place_round};
ghost use Rattle.turn_words.specs.Wheels.{IsWheel, IsInside, IsFirstOutside};
ghost use Rattle.turn_words.specs.Private.StoredWheels.{IsInverse};
ghost use Rattle.turn_words.specs.Faults.{IsWheelFault};

use std::alloc::{AllocError, Global};
use std::marker::Model;
use surf_model::Spoke;

/// The place of each spoke round the one vertex. The spokes are numbered by their order round the
/// middle of the polygon. There are as many places as spokes, and each place has one spoke.
#[derive(Debug, Drop)]
pub struct Wheel {
    places: Vec<u32>,
    spokes: Vec<u32>,
}

impl Model for Wheel {
    ghost use Rattle.std.specs.Prelude.{List, ℕ};
    ghost use Rattle.turn_words.specs.Private.StoredWheels.{IsStoredWheel};

    ghost Value = { List ℕ };

    ghost view = { λ wheel. wheel.places.items };

    ghost invariant = { λ wheel. IsStoredWheel wheel.places.items wheel.spokes.items };
}

/// Why a list is no list of places.
#[derive(Clone, Copy, Debug, PartialEq, Eq)]
pub enum WheelFault {
    /// The least spoke whose place is not below the number of spokes.
    Range { spoke: Spoke },
    /// The least place that two spokes have.
    Twice { place: u32 },
    /// Memory ran out.
    OutOfMemory,
}

impl From<AllocError> for WheelFault {
    ghost use Rattle.std.specs.Prelude.{◌≡◌};
    ghost use Rattle.turn_words.specs.declared.wheel.WheelFault.TheVariants.{OutOfMemory};

    ghost from_gives = { λ _ fault. fault ≡ OutOfMemory };

    fn from(_error: AllocError) -> WheelFault {
        WheelFault::OutOfMemory
    }
}

impl Wheel {
    /// The wheel whose spoke `k` has the place `places[k]`. A place that is too large is named before one
    /// that stands twice.
    pub fn build(alloc: Global, places: &[u32]) -> Result<Wheel, WheelFault>
        requires { length places.now < 2 ^ 32 }
        ensures places { IfOk result (λ wheel. wheel ≡ places.now) }
        ensures cases { MatchResult result (λ _. IsWheel places.now) (IsWheelFault places.now) }
    {
        if let Some(spoke) = first_outside(places) {
            return Err(WheelFault::Range {
                spoke: Spoke(spoke as u32),
            });
        }
        let spokes = inverse_of(alloc, places)?;
        let places = Vec::from_slice(alloc, places)?;
        Ok(Wheel { places, spokes })
    }

    /// How many spokes there are.
    pub fn degree(&self) -> u32
        ensures degree { result ≡ length self.now }
        ensures wheel { IsWheel self.now }
    {
        self.places.len() as u32
    }

    /// The place of a spoke round the vertex.
    pub fn place(&self, spoke: Spoke) -> u32
        requires { spoke.0 < length self.now }
        ensures place { result ≡ slice_index self.now spoke.0 }
        ensures below { result < length self.now }
    {
        self.places[spoke.0 as usize]
    }

    /// The one spoke that has a place.
    pub fn spoke_at(&self, place: u32) -> Spoke
        requires { place < length self.now }
        ensures below { result.0 < length self.now }
        ensures place { slice_index self.now result.0 ≡ place }
    {
        Spoke(self.spokes[place as usize])
    }

    /// Where a spoke comes round the vertex, which is its place, or round the middle, which is its number.
    pub fn place_round(&self, at_vertex: bool, spoke: u32) -> u32
        requires { spoke < length self.now }
        ensures place { result ≡ place_round self.now at_vertex spoke }
        ensures below { result < length self.now }
    {
        if at_vertex {
            self.place(Spoke(spoke))
        } else {
            spoke
        }
    }

    /// The spoke that comes at a place round the vertex, or round the middle.
    pub fn spoke_round(&self, at_vertex: bool, place: u32) -> u32
        requires { place < length self.now }
        ensures below { result < length self.now }
        ensures place { place_round self.now at_vertex result ≡ place }
    {
        if at_vertex {
            self.spoke_at(place).0
        } else {
            place
        }
    }
}

/// The least spoke whose place is not below the number of spokes.
fn first_outside(places: &[u32]) -> Option<usize>
    requires { length places.now < 2 ^ 32 }
    ensures { MatchOption result (IsInside places.now) (IsFirstOutside places.now) }
{
    let degree = places.len() as u32;
    for (spoke, place) in places.iter().enumerate() {
        if *place >= degree {
            return Some(spoke);
        }
    }
    None
}

/// The spoke of each place, or the least place that two spokes have.
fn inverse_of(alloc: Global, places: &[u32]) -> Result<Vec<u32>, WheelFault>
    requires few { length places.now < 2 ^ 32 }
    requires inside { IsInside places.now }
    ensures inverse { IfOk result (λ spokes. IsInverse places.now spokes.items) }
    ensures cases { MatchResult result (λ _. IsWheel places.now) (IsWheelFault places.now) }
{
    let degree = places.len() as u32;
    // A place without a spoke so far has the degree in place of its spoke.
    let mut spokes = vec![in alloc; degree; places.len()]?;
    let mut twice = degree;
    for (spoke, place) in places.iter().enumerate() {
        if spokes[*place as usize] == degree {
            spokes[*place as usize] = spoke as u32;
        } else if *place < twice {
            twice = *place;
        }
    }
    if twice < degree {
        return Err(WheelFault::Twice { place: twice });
    }
    Ok(spokes)
}
