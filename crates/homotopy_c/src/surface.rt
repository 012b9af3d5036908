//! The numbers of a surface.
ghost use Rattle.std.specs.Prelude.{◌≡◌};
ghost use Rattle.homotopy_arrays.specs.MeshArrays.{mesh_from_arrays};
ghost use Rattle.homotopy_c.specs.Told.{IsSurfaceTold, surface_numbers_of};

use crate::codes;
use crate::outcome::{Outcome, coded, told};
use crate::room::put_items;
use homotopy_arrays::{Measured, MeshArrays, measure_arrays};
use std::alloc::Global;

/// The numbers of a surface.
#[repr(C)]
#[derive(Clone, Copy, Debug, PartialEq, Eq)]
pub struct SurfaceNumbers {
    /// How many vertices some face names.
    pub vertices: u32,
    pub edges: u32,
    pub faces: u32,
    /// The Euler characteristic: used vertices less edges plus faces.
    pub euler: i64,
    pub components: u64,
}

/// The numbers of the orientable closed surface that the arrays are, and the genus of each of its components, in the order of their least
/// vertices; or what is first wrong.
///
/// Where `genera` has too little room it is left as it was, and only the numbers are written.
#[unsafe(no_mangle)]
pub extern "C" fn homotopy_surface(
    alloc: Global,
    vertices: u32,
    sizes: &[u32],
    corners: &[u32],
    numbers: &mut SurfaceNumbers,
    genera: &mut [u32],
    outcome: &mut Outcome,
)
    ensures { IsSurfaceTold (mesh_from_arrays vertices sizes.now corners.now) numbers.old numbers.new genera.old genera.new outcome.new }
{
    let mesh = MeshArrays {
        vertices,
        sizes,
        corners,
    };
    match measure_arrays(alloc, mesh) {
        Ok(measured) => {
            *numbers = numbers_of(&measured);
            *outcome = put_items(&measured.genera, genera, coded(codes::DONE, 0, 0, 0));
        }
        Err(fault) => *outcome = told(fault),
    }
}

/// The numbers of a surface that was measured.
fn numbers_of(measured: &Measured) -> SurfaceNumbers
    ensures { result ≡ surface_numbers_of measured.now }
{
    let numbers = measured.numbers;
    SurfaceNumbers {
        vertices: numbers.vertices,
        edges: numbers.edges,
        faces: numbers.faces,
        euler: numbers.euler,
        components: measured.genera.len() as u64,
    }
}
