//! How many vertices, edges and faces a mesh has.
ghost use Rattle.std.specs.Prelude.{◌≡◌, pos, ◌+ℤ◌, ◌-ℤ◌};

/// The numbers of a mesh.
#[derive(Clone, Copy, Debug, PartialEq, Eq)]
pub struct SurfaceNumbers {
    /// How many vertices some face names.
    pub vertices: u32,
    /// How many edges there are.
    pub edges: u32,
    /// How many faces there are.
    pub faces: u32,
    /// The Euler characteristic: used vertices less edges plus faces.
    pub euler: i64,
}

impl SurfaceNumbers {
    /// The numbers of a mesh with so many used vertices, edges and faces.
    pub fn of(vertices: u32, edges: u32, faces: u32) -> SurfaceNumbers
        ensures vertices { result.vertices ≡ vertices }
        ensures edges { result.edges ≡ edges }
        ensures faces { result.faces ≡ faces }
        ensures euler { result.euler ≡ (pos vertices -ℤ pos edges) +ℤ pos faces }
    {
        SurfaceNumbers {
            vertices,
            edges,
            faces,
            euler: i64::from(vertices) - i64::from(edges) + i64::from(faces),
        }
    }
}
