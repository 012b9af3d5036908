//! Polygons.
ghost use Rattle.std.specs.Prelude.{◌≡◌, ◌<◌, length};
ghost use Rattle.polygon_cut.specs.Polygons.{side_at, label_of, place_of};

use std::marker::Model;
use surf_model::{DartName, Spoke};

/// The polygon that a surface is cut into along its tree and its leftover edges.
///
/// Its sides are the leftover darts, in the order in which the ring of tree and leftover edges passes them. Its corners
/// are all at one vertex, if the tree is shrunk to a point; the spokes lead from there to the middle of the polygon, one
/// for each corner.
#[derive(Debug, Drop)]
pub struct Polygon {
    pub(crate) degree: u32,
    /// For each side its leftover dart.
    pub(crate) sides: Vec<DartName>,
    /// For each dart the number of the first side at or after it on the ring; empty where there is no side.
    pub(crate) labels: Vec<u32>,
    /// For each spoke its place round the vertex.
    pub(crate) places: Vec<u32>,
}

impl Model for Polygon {
    ghost use Rattle.std.specs.Prelude.{◌≡◌, length};
    ghost use Rattle.tree_cotree.specs.RingViews.{dart_numbers};
    ghost use Rattle.polygon_cut.specs.Polygons.{PolygonView};

    ghost Value = { PolygonView };

    ghost view = { λ a. record {
      degree = a.degree;
      sides = dart_numbers a.sides.items;
      labels = a.labels.items;
      places = a.places.items;
    } };

    ghost invariant = { λ a. (length a.sides.items ≡ a.degree) × (length a.places.items ≡ a.degree) };
}

/// What a polygon holds of each dart and of each spoke, when it is taken apart.
#[derive(Debug, Drop)]
pub struct PolygonNumbers {
    /// For each dart its label.
    pub labels: Vec<u32>,
    /// For each spoke its place.
    pub places: Vec<u32>,
}

impl Polygon {
    /// The number of sides, which is four times the genus.
    pub fn degree(&self) -> u32
        ensures degree { result ≡ self.now.degree }
        // What holds of every polygon.
        ensures sides { length self.now.sides ≡ self.now.degree }
        ensures places { length self.now.places ≡ self.now.degree }
    {
        self.degree
    }

    /// The dart of a side: the leftover dart with this number along the ring of tree and leftover edges.
    pub fn side(&self, i: u32) -> DartName
        requires { i < length self.now.sides }
        ensures { result.0 ≡ side_at self.now i }
    {
        self.sides[i as usize]
    }

    /// The label of a dart: the number of the first leftover dart at or after it on that ring. A polygon without sides
    /// has no labels.
    pub fn label(&self, dart: DartName) -> Spoke
        requires { dart.0 < length self.now.labels }
        ensures { result.0 ≡ label_of self.now dart.0 }
    {
        Spoke(self.labels[dart.0 as usize])
    }

    /// The place of a spoke round the one vertex.
    pub fn place(&self, spoke: Spoke) -> u32
        requires { spoke.0 < length self.now.places }
        ensures { result ≡ place_of self.now spoke.0 }
    {
        self.places[spoke.0 as usize]
    }

    /// The labels of the darts and the places of the spokes, for a caller that goes on with them and needs no more of the
    /// polygon.
    pub fn into_numbers(self) -> PolygonNumbers
        ensures labels { result.labels.items ≡ self.labels }
        ensures places { result.places.items ≡ self.places }
    {
        let Polygon {
            degree: _,
            sides: _,
            labels,
            places,
        } = self;
        PolygonNumbers { labels, places }
    }
}
