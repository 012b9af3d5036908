//! Turning round the one vertex, to which all corners of a polygon come.
ghost use Rattle.std.specs.Prelude.{◌≡◌, ◌<◌, ◌^◌, length, IfOk};
ghost use Rattle.halfedge_map.specs.RotationSystems.{rotations_of};
ghost use Rattle.polygon_cut.specs.Polygons.{one_up, one_down, turned};
ghost use Rattle.polygon_cut.specs.StoredPolygons.{without_places, TurnsRound, IsPlacedByTurns};

use halfedge_map::Surface;
use std::alloc::{AllocError, Global};
use surf_model::DartName;

/// The places of the spokes round the one vertex: they fall by one with each turn, from 0 at spoke 0.
pub(crate) fn places_by_turns(
    alloc: Global,
    surface: &Surface,
    sides: &[DartName],
    labels: &[u32],
) -> Result<Vec<u32>, AllocError>
    requires round { TurnsRound (rotations_of surface.now) (without_places sides.now labels.now) }
    requires few { length sides.now < 2 ^ 32 }
    ensures { IfOk result (λ places. IsPlacedByTurns (length sides.now)
        (turned (rotations_of surface.now) (without_places sides.now labels.now)) (length sides.now) places.items) }
{
    let degree = sides.len() as u32;
    let mut places = vec![in alloc; 0; sides.len()]?;
    let mut spoke = 0;
    let mut place = 0;
    for _turn in 0..degree {
        places[spoke as usize] = place;
        place = number_before(degree, place);
        let twin = surface.twin(sides[spoke as usize]);
        spoke = number_after(degree, labels[twin.0 as usize]);
    }
    Ok(places)
}

/// The number after one below the degree, counted round.
fn number_after(degree: u32, number: u32) -> u32
    requires { number < degree }
    ensures { result ≡ one_up degree number }
{
    if number + 1 == degree { 0 } else { number + 1 }
}

/// The number before one below the degree, counted round.
fn number_before(degree: u32, number: u32) -> u32
    requires { number < degree }
    ensures { result ≡ one_down degree number }
{
    if number == 0 { degree - 1 } else { number - 1 }
}
