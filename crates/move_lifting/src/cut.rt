//! A surface with its split, and with the polygon that it is cut into.
use halfedge_map::Surface;
use polygon_cut::Polygon;
use tree_cotree::Split;

/// A surface with a split of it.
#[derive(Clone, Copy)]
pub(crate) struct SplitSurface<'a> {
    pub(crate) surface: &'a Surface,
    pub(crate) split: &'a Split,
}

/// A surface with a split of it and the polygon that it is cut into.
#[derive(Clone, Copy)]
pub(crate) struct Cut<'a> {
    pub(crate) on: SplitSurface<'a>,
    pub(crate) polygon: &'a Polygon,
}
