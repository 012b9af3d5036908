//! How deep the faces of a surface lie below the root of its cotree.
ghost use Rattle.std.specs.Prelude.{◌≡◌, ◌<◌, length, All, IfOk, OnOk};
ghost use Rattle.halfedge_map.specs.DartMaps.{darts_of};
ghost use Rattle.move_lifting.specs.Cuts.{IsSplitSurface};
ghost use Rattle.surf_model.specs.declared.names.DartName.{DartName};

use crate::cut::SplitSurface;
use std::alloc::{AllocError, Global};
use surf_model::DartName;

/// The depth of a face that was not found.
pub(crate) const DEEPEST: u32 = u32::MAX;

/// For each face how many steps up the cotree lead from it to the root: a search from the root, step by step. In what order
/// faces are crossed rests on it, and nothing else.
pub(crate) fn face_depths(alloc: Global, on: &SplitSurface<'_>) -> Result<Vec<u32>, AllocError>
    requires { IsSplitSurface on.now }
    ensures { IfOk result (λ depths. length depths.items ≡ length on.now.surface.now.mesh.faces) }
{
    let faces = on.surface.faces().len();
    let root = on.split.root_face();
    let mut depths = vec![in alloc; DEEPEST; faces as usize]?;
    depths[root.0 as usize] = 0;
    let mut found = Vec::new(alloc);
    for dart in 0..on.surface.darts() {
        if found.is_empty() && on.surface.face_of(DartName(dart)) == root {
            found.push(DartName(dart))?;
        }
    }
    for place in 0..faces as usize {
        if place < found.len() {
            let dart = found[place];
            find_below(&mut depths, &mut found, on, dart)?;
        }
    }
    Ok(depths)
}

/// Finds the faces below the face of a dart that were not found yet: each by its dart on the edge between.
fn find_below(
    depths: &mut Vec<u32>,
    found: &mut Vec<DartName>,
    on: &SplitSurface<'_>,
    dart: DartName,
) -> Result<(), AllocError>
    requires on { IsSplitSurface on.now }
    requires depths { length depths.old.items ≡ length on.now.surface.now.mesh.faces }
    requires found { All (λ (d : DartName). d.0 < darts_of on.now.surface.now) found.old.items }
    requires dart { dart.0 < darts_of on.now.surface.now }
    ensures depths { OnOk result (length depths.new.items ≡ length depths.old.items) }
    ensures found { OnOk result (All (λ (d : DartName). d.0 < darts_of on.now.surface.now) found.new.items) }
{
    let surface = on.surface;
    let face = surface.face_of(dart);
    let depth = depths[face.0 as usize].saturating_add(1);
    let mut side = dart;
    for _side in 0..surface.faces().sides(face) {
        let twin = surface.twin(side);
        let below = surface.face_of(twin);
        let child = on.split.child_face(surface.edge_of(side));
        if child == Some(below) && depths[below.0 as usize] == DEEPEST {
            depths[below.0 as usize] = depth;
            found.push(twin)?;
        }
        side = surface.next(side);
    }
    Ok(())
}
