//! The spokes of a walk, and the steps that make them short.
ghost use Rattle.std.specs.Prelude.{◌≡◌, ◌+◌, ◌*◌, ◌<◌, ◌≤◌, ◌↔◌, ℕ, List, [], true, length, IfOk, OnOk, IsTrue};
ghost use Rattle.surf_model.specs.FaceLists.{is_edge};
ghost use Rattle.surf_model.specs.Vertices.{numbers};
ghost use Rattle.surf_model.specs.Walks.{IsWalk, darts};
ghost use Rattle.halfedge_map.specs.OrientedMeshes.{IsOrientedSurface};
ghost use Rattle.turn_words.specs.Wheels.{IsWheel};
ghost use Rattle.polygon_cut.specs.Polygons.{IsPolygonOf};
ghost use Rattle.spoke_paths.specs.PathSteps.{PathLeads};
ghost use Rattle.move_lifting.specs.Reductions.{HasSpokesMore, AreFreeSpokesOf, IsReductionOf, spurs_of};
ghost use Rattle.move_lifting.specs.declared.expanding.TheConstants.{MOST_LIFTED_DARTS};

use halfedge_map::Surface;
use polygon_cut::Polygon;
use spoke_paths::{PathStep, reduce_spokes};
use std::alloc::{AllocError, Global};
use surf_model::{Spoke, VertexName};
use turn_words::{Wheel, WheelFault};

/// The spokes of a walk, and the steps that lead from them to a reduced path.
#[derive(Drop)]
pub(crate) struct Reduction {
    /// The places of the spokes.
    pub(crate) wheel: Wheel,
    pub(crate) spokes: Vec<u32>,
    pub(crate) steps: Vec<PathStep>,
}

impl Reduction {
    /// The reduction of a walk on a surface that is cut into a polygon.
    pub(crate) fn of(
        alloc: Global,
        surface: &Surface,
        polygon: &Polygon,
        walk: &[VertexName],
    ) -> Result<Reduction, AllocError>
        requires cut { IsPolygonOf surface.now polygon.now }
        requires some { 0 < polygon.now.degree }
        requires walk { IsWalk surface.now.mesh (numbers walk.now) }
        requires few { length walk.now ≤ MOST_LIFTED_DARTS + 1 }
        ensures reduction { IfOk result (IsReductionOf surface.now polygon.now (numbers walk.now)) }
        // What holds of every surface.
        ensures valid { IfOk result (λ _. IsOrientedSurface surface.now) }
    {
        // What holds of every surface.
        let _ = surface.faces();
        let wheel = wheel_of(alloc, polygon)?;
        let spokes = spokes_of(alloc, surface, polygon, walk)?;
        let steps = reduce_spokes(alloc, &wheel, &spokes)?;
        Ok(Reduction {
            wheel,
            spokes,
            steps,
        })
    }

    /// Tells whether the steps leave no spokes. Each spur takes two, and no other step takes any.
    pub(crate) fn leaves_nothing(&self) -> bool
        ensures { (end : List ℕ) → PathLeads self.now.wheel self.now.spokes.items self.now.steps.items end
            → IsTrue result ↔ (end ≡ []) }
    {
        let spokes = self.spokes.len();
        spokes % 2 == 0 && spurs_in(&self.steps) == spokes / 2
    }
}

/// The wheel of the places of a polygon.
fn wheel_of(alloc: Global, polygon: &Polygon) -> Result<Wheel, AllocError>
    requires { IsWheel polygon.now.places }
    ensures { IfOk result (λ wheel. wheel ≡ polygon.now.places) }
{
    let mut places = Vec::new(alloc);
    for spoke in 0..polygon.degree() {
        places.push(polygon.place(Spoke(spoke)))?;
    }
    match Wheel::build(alloc, &places) {
        Ok(wheel) => Ok(wheel),
        Err(WheelFault::OutOfMemory) => Err(AllocError),
        Err(WheelFault::Range { spoke: _ }) => unreachable!(),
        Err(WheelFault::Twice { place: _ }) => unreachable!(),
    }
}

/// The spokes of the darts of a walk, those of the side across in place of the last side's.
fn spokes_of(
    alloc: Global,
    surface: &Surface,
    polygon: &Polygon,
    walk: &[VertexName],
) -> Result<Vec<u32>, AllocError>
    requires valid { IsOrientedSurface surface.now }
    requires cut { IsPolygonOf surface.now polygon.now }
    requires some { 0 < polygon.now.degree }
    requires walk { IsWalk surface.now.mesh (numbers walk.now) }
    ensures spokes { IfOk result (λ spokes. AreFreeSpokesOf surface.now polygon.now (numbers walk.now) spokes.items) }
    ensures few { IfOk result (λ spokes. length spokes.items ≤ 2 * length walk.now) }
{
    let mut spokes = Vec::new(alloc);
    for place in 1..walk.len() {
        push_spokes(&mut spokes, surface, polygon, walk[place - 1], walk[place])?;
    }
    Ok(spokes)
}

/// Puts the spokes of a dart last.
fn push_spokes(
    spokes: &mut Vec<u32>,
    surface: &Surface,
    polygon: &Polygon,
    from: VertexName,
    to: VertexName,
) -> Result<(), AllocError>
    requires valid { IsOrientedSurface surface.now }
    requires cut { IsPolygonOf surface.now polygon.now }
    requires some { 0 < polygon.now.degree }
    requires edge { is_edge surface.now.mesh from.0 to.0 ≡ true }
    ensures { OnOk result (HasSpokesMore surface.now polygon.now from.0 to.0 spokes.old.items spokes.new.items) }
{
    let dart = surface.dart_between(from, to).unwrap();
    let last = polygon.side(polygon.degree() - 1);
    if dart == last {
        let across = polygon.label(surface.twin(last));
        spokes.push(across.0 + 1)?;
        spokes.push(across.0)?;
        return Ok(());
    }
    let tail = polygon.label(dart);
    let head = polygon.label(surface.next(dart));
    if tail != head {
        spokes.push(tail.0)?;
        spokes.push(head.0)?;
    }
    Ok(())
}

/// How many of the steps take out a spur.
fn spurs_in(steps: &[PathStep]) -> usize
    ensures { result ≡ spurs_of steps.now }
{
    let mut spurs = 0;
    for step in steps {
        if let PathStep::Spur { at: _ } = step {
            spurs += 1;
        }
    }
    spurs
}
