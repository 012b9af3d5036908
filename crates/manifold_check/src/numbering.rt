//! For each vertex the place of its component.
ghost use Rattle.std.specs.Prelude.{◌≡◌, ◌≤◌, ℕ, length, IfOk};
ghost use Rattle.surf_model.specs.Edges.{IsTableOf};
ghost use Rattle.surf_model.specs.Components.{ArePlacesOfComponents};
ghost use Rattle.connectivity.specs.Classes.{AreLeastMembers};
ghost use Rattle.connectivity.specs.Partitions.{AreComponents};

use connectivity::components;
use std::alloc::{AllocError, Global};
use surf_model::{Faces, Sides, VertexName};

/// The places of the components, and how many components there are.
#[derive(Drop)]
pub struct Numbered {
    /// For each vertex the place of its component, and 0 for one that no face names.
    pub places: Vec<u32>,
    pub count: u32,
}

/// The components by number, in the order of their least vertices.
pub fn number_components(
    alloc: Global,
    faces: &Faces,
    sides: &Sides,
) -> Result<Numbered, AllocError>
    requires table { IsTableOf faces.now sides.now }
    ensures places { IfOk result (λ numbered. ArePlacesOfComponents faces.now numbered.count numbered.places.items) }
    ensures few { IfOk result (λ numbered. numbered.count ≤ faces.now.count) }
{
    let least = components(alloc, faces, sides)?;
    number(alloc, faces, sides, &least)
}

/// The same, where for each vertex the least of its component is known.
fn number(
    alloc: Global,
    faces: &Faces,
    sides: &Sides,
    least: &[u32],
) -> Result<Numbered, AllocError>
    requires table { IsTableOf faces.now sides.now }
    requires count { length least.now ≡ faces.now.count }
    requires components { AreComponents faces.now least.now }
    requires members { AreLeastMembers least.now }
    ensures places { IfOk result (λ numbered. ArePlacesOfComponents faces.now numbered.count numbered.places.items) }
    ensures few { IfOk result (λ numbered. numbered.count ≤ faces.now.count) }
{
    let mut places = Vec::with_capacity(alloc, faces.count() as usize)?;
    let mut count = 0;
    for vertex in 0..faces.count() {
        let first = least[vertex as usize];
        if !sides.used(VertexName(vertex)) {
            places.push(0)?;
        } else if first == vertex {
            places.push(count)?;
            count += 1;
        } else {
            // The least of a component comes before the others, so its place is known.
            let place = places[first as usize];
            places.push(place)?;
        }
    }
    Ok(Numbered { places, count })
}
