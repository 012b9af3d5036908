//! The labelling that a polygon gives.
ghost use Rattle.std.specs.Prelude.{◌≡◌, ◌<◌, ◌≤◌, ◌^◌, All, length, take, drop, ◌++◌, IfOk, OnOk};
ghost use Rattle.std.specs.List.{between};
ghost use Rattle.halfedge_map.specs.OrientedMeshes.{IsOrientedSurface};
ghost use Rattle.halfedge_map.specs.DartMaps.{darts_of};
ghost use Rattle.polygon_cut.specs.Polygons.{IsPolygonOf};
ghost use Rattle.labellings.specs.Labellings.{LabellingView};
ghost use Rattle.labellings.specs.GoodLabellings.{HasPlaces, IsGood};
ghost use Rattle.quad_system.specs.PolygonLabellings.{at_corners, labelling_from, numbers_alone, IsFull};

use halfedge_map::Surface;
use labellings::{GoodLabelling, Labelling};
use polygon_cut::{Polygon, PolygonNumbers};
use std::alloc::{AllocError, Global};
use surf_model::{DartName, FaceName, Spoke};
use turn_words::{Wheel, WheelFault};

/// What a polygon gives: a labelling, alone or as a good one.
pub trait FromPolygon {
    /// The labelling.
    ghost seen: { Self → LabellingView };

    /// The labelling that a polygon gives: the signs of the surface, the places of the polygon, and at each corner the
    /// label of the dart of its face that starts there.
    fn from_polygon(alloc: Global, surface: &Surface, polygon: &Polygon) -> Result<Self, AllocError>
        requires cut { IsPolygonOf surface.now polygon.now }
        requires some { 0 < polygon.now.degree }
        ensures labelling { IfOk result (λ made. seen made ≡ labelling_from surface.now polygon.now) };

    /// The same labelling, where the polygon is needed no more. The labels stay in its memory: it has one for each dart,
    /// and the darts of a face lie in the order of its corners.
    fn from_spent_polygon(
        alloc: Global,
        surface: &Surface,
        polygon: Polygon,
    ) -> Result<Self, AllocError>
        requires cut { IsPolygonOf surface.now polygon }
        requires some { 0 < polygon.degree }
        ensures labelling { IfOk result (λ made. seen made ≡ labelling_from surface.now polygon) };
}

impl FromPolygon for Labelling {
    ghost seen = { λ labelling. labelling };

    fn from_polygon(
        alloc: Global,
        surface: &Surface,
        polygon: &Polygon,
    ) -> Result<Labelling, AllocError>
        requires { length polygon.now.labels ≡ darts_of surface.now }
        ensures { IfOk result (λ labelling. labelling ≡ labelling_from surface.now polygon.now) }
    {
        let labels = labels_of(alloc, surface, polygon)?;
        let places = places_of(alloc, polygon)?;
        laid_out(
            alloc,
            surface,
            polygon.degree(),
            PolygonNumbers { labels, places },
        )
    }

    fn from_spent_polygon(
        alloc: Global,
        surface: &Surface,
        polygon: Polygon,
    ) -> Result<Labelling, AllocError>
        requires { length polygon.labels ≡ darts_of surface.now }
        ensures { IfOk result (λ labelling. labelling ≡ labelling_from surface.now polygon) }
    {
        let degree = polygon.degree();
        laid_out(alloc, surface, degree, polygon.into_numbers())
    }
}

impl FromPolygon for GoodLabelling {
    ghost seen = { λ good. good };

    /// It is good whatever the polygon was cut along, so the mesh is not looked at again.
    fn from_polygon(
        alloc: Global,
        surface: &Surface,
        polygon: &Polygon,
    ) -> Result<GoodLabelling, AllocError>
        requires cut { IsPolygonOf surface.now polygon.now }
        requires some { 0 < polygon.now.degree }
        ensures labelling { IfOk result (λ good. good ≡ labelling_from surface.now polygon.now) }
        ensures good { OnOk result (IsGood surface.now.mesh (labelling_from surface.now polygon.now)) }
        ensures full { OnOk result (IsFull surface.now.mesh (labelling_from surface.now polygon.now)) }
    {
        // The proof reads what holds of every surface.
        let _ = surface.faces();
        let labelling = Labelling::from_polygon(alloc, surface, polygon)?;
        with_wheel(alloc, labelling)
    }

    fn from_spent_polygon(
        alloc: Global,
        surface: &Surface,
        polygon: Polygon,
    ) -> Result<GoodLabelling, AllocError>
        requires cut { IsPolygonOf surface.now polygon }
        requires some { 0 < polygon.degree }
        ensures labelling { IfOk result (λ good. good ≡ labelling_from surface.now polygon) }
        ensures good { OnOk result (IsGood surface.now.mesh (labelling_from surface.now polygon)) }
        ensures full { OnOk result (IsFull surface.now.mesh (labelling_from surface.now polygon)) }
    {
        // The proof reads what holds of every surface.
        let _ = surface.faces();
        let labelling = Labelling::from_spent_polygon(alloc, surface, polygon)?;
        with_wheel(alloc, labelling)
    }
}

/// A labelling whose places differ, with the wheel of its places.
fn with_wheel(alloc: Global, labelling: Labelling) -> Result<GoodLabelling, AllocError>
    requires each_spoke { length labelling.places ≡ labelling.degree }
    requires below { All (λ place. place < labelling.degree) labelling.places }
    requires apart { HasPlaces labelling }
    ensures { IfOk result (λ good. good ≡ labelling) }
{
    match Wheel::build(alloc, labelling.all_places()) {
        Ok(wheel) => Ok(GoodLabelling::from_parts(labelling, wheel)),
        Err(WheelFault::OutOfMemory) => Err(AllocError),
        Err(WheelFault::Range { spoke: _ }) => unreachable!(),
        Err(WheelFault::Twice { place: _ }) => unreachable!(),
    }
}

/// The labels of all darts, copied.
fn labels_of(alloc: Global, surface: &Surface, polygon: &Polygon) -> Result<Vec<u32>, AllocError>
    requires { length polygon.now.labels ≡ darts_of surface.now }
    ensures { IfOk result (λ labels. labels.items ≡ polygon.now.labels) }
{
    let mut labels = Vec::with_capacity(alloc, surface.darts() as usize)?;
    for dart in 0..surface.darts() {
        labels.push(polygon.label(DartName(dart)).0)?;
    }
    Ok(labels)
}

/// The places of all spokes, copied.
fn places_of(alloc: Global, polygon: &Polygon) -> Result<Vec<u32>, AllocError>
    ensures { IfOk result (λ places. places.items ≡ polygon.now.places) }
{
    let mut places = Vec::with_capacity(alloc, polygon.degree() as usize)?;
    for spoke in 0..polygon.degree() {
        places.push(polygon.place(Spoke(spoke)))?;
    }
    Ok(places)
}

/// The labels of darts, laid out by corners, with the places of spokes.
fn laid_out(
    alloc: Global,
    surface: &Surface,
    degree: u32,
    numbers: PolygonNumbers,
) -> Result<Labelling, AllocError>
    requires labels { length numbers.labels.items ≡ darts_of surface.now }
    requires places { length numbers.places.items < 2 ^ 32 }
    ensures { IfOk result (λ labelling. labelling
        ≡ labelling_from surface.now (numbers_alone degree numbers.labels.items numbers.places.items)) }
{
    let faces = surface.faces().len();
    let PolygonNumbers { mut labels, places } = numbers;
    let mut signs = Vec::with_capacity(alloc, faces as usize)?;
    let mut ends = Vec::with_capacity(alloc, faces as usize)?;
    for face in 0..faces {
        let face = FaceName(face);
        let start = surface.faces().first_dart(face).0 as usize;
        let end = start + surface.faces().sides(face) as usize;
        let flipped = surface.signs().flipped(face);
        to_corners(&mut labels, start, end, flipped);
        signs.push(flipped)?;
        ends.push(end)?;
    }
    Ok(Labelling::from_parts(degree, signs, ends, labels, places))
}

/// Puts the labels of a face's darts, which lie between two places, at the corners where the darts start. In a flipped face
/// that is the corner after the one of the same number.
fn to_corners(labels: &mut [u32], start: usize, end: usize, flipped: bool)
    requires some { start < end }
    requires within { end ≤ length labels.old }
    ensures { labels.new ≡ take start labels.old ++ at_corners flipped (between start end labels.old) ++ drop end labels.old }
{
    if flipped {
        labels[start..end].rotate_right(1);
    }
}
