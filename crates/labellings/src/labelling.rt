//! Labellings: a label for each corner of a mesh, with a sign for each face and the places of the spokes.
ghost use Rattle.std.specs.Prelude.{◌≡◌, ◌-◌, ◌^◌, ◌<◌, ◌≤◌, [], ◌∷◌, ◌++◌, length, take, drop, slice_index, OnOk, OnErr};
ghost use Rattle.surf_model.specs.Surfaces.{is_flipped};
ghost use Rattle.labellings.specs.Labellings.{labels_at, signs_of};
ghost use Rattle.labellings.specs.StoredLabellings.{IsStoredLabelling, stored_labelling};

use std::alloc::{AllocError, Global};
use std::marker::Model;
use surf_model::FaceName;

/// How many spokes there are, for each face its sign and the labels of its corners, and the place of each spoke.
///
/// All labels stand in one vector, face after face, so that no face takes memory of its own.
#[derive(Debug, Drop)]
pub struct Labelling {
    degree: u32,
    signs: Vec<bool>,
    /// For each face the place in `labels` where its labels end.
    ends: Vec<usize>,
    labels: Vec<u32>,
    places: Vec<u32>,
}

impl Model for Labelling {
    ghost use Rattle.labellings.specs.Labellings.{LabellingView};
    ghost use Rattle.labellings.specs.StoredLabellings.{IsStoredLabelling, stored_labelling};

    ghost Value = { LabellingView };

    ghost view = { λ a. stored_labelling a.degree a.signs.items a.ends.items a.labels.items a.places.items };

    ghost invariant = { λ a. IsStoredLabelling a.signs.items a.ends.items a.labels.items a.places.items };
}

impl Labelling {
    /// A labelling of no faces, with no places. It takes no memory.
    pub fn new(alloc: Global, degree: u32) -> Labelling
        ensures { result ≡ record { degree = degree; faces = []; places = [] } }
    {
        Labelling {
            degree,
            signs: Vec::new(alloc),
            ends: Vec::new(alloc),
            labels: Vec::new(alloc),
            places: Vec::new(alloc),
        }
    }

    /// The labelling that lies so in memory: its degree, the sign of each face, where the labels of each face end, all labels
    /// one after another, and the places. It takes no memory.
    pub fn from_parts(
        degree: u32,
        signs: Vec<bool>,
        ends: Vec<usize>,
        labels: Vec<u32>,
        places: Vec<u32>,
    ) -> Labelling
        requires { IsStoredLabelling signs.items ends.items labels.items places.items }
        ensures { result ≡ stored_labelling degree signs.items ends.items labels.items places.items }
    {
        Labelling {
            degree,
            signs,
            ends,
            labels,
            places,
        }
    }

    /// Puts a face last: whether it is turned round, and the labels of its corners. Where memory runs out the labelling
    /// stays.
    pub fn push_face(&mut self, flipped: bool, labels: &[u32]) -> Result<(), AllocError>
        requires faces { length self.old.faces < 2 ^ 32 - 1 }
        requires labels { length labels.now < 2 ^ 32 }
        ensures ok { OnOk result (self.new
            ≡ record self.old { faces = self.old.faces ++ (record { flipped = flipped; labels = labels.now }) ∷ [] }) }
        ensures err { OnErr result (self.new ≡ self.old) }
    {
        self.labels.reserve(labels.len())?;
        self.signs.reserve(1)?;
        self.ends.push(self.labels.len() + labels.len())?;
        self.signs.push(flipped).unwrap();
        self.labels.extend_from_slice(labels).unwrap();
        Ok(())
    }

    /// Puts the place of the next spoke last. Where memory runs out the labelling stays.
    pub fn push_place(&mut self, place: u32) -> Result<(), AllocError>
        requires { length self.old.places < 2 ^ 32 - 1 }
        ensures ok { OnOk result (self.new ≡ record self.old { places = self.old.places ++ place ∷ [] }) }
        ensures err { OnErr result (self.new ≡ self.old) }
    {
        self.places.push(place)?;
        Ok(())
    }

    /// How many spokes there are said to be.
    pub fn degree(&self) -> u32
        ensures { result ≡ self.now.degree }
    {
        self.degree
    }

    /// The number of faces.
    pub fn faces(&self) -> u32
        ensures { result ≡ length self.now.faces }
    {
        self.ends.len() as u32
    }

    /// Whether a face is turned round.
    pub fn flipped(&self, face: FaceName) -> bool
        requires { face.0 < length self.now.faces }
        ensures { result ≡ is_flipped (signs_of self.now) face.0 }
    {
        self.signs[face.0 as usize]
    }

    /// The number of labels of a face.
    pub fn corners(&self, face: FaceName) -> u32
        requires { face.0 < length self.now.faces }
        ensures { result ≡ length (labels_at self.now face.0) }
    {
        (self.ends[face.0 as usize] - start_of(&self.ends, face)) as u32
    }

    /// The label of a corner of a face.
    pub fn label(&self, face: FaceName, corner: u32) -> u32
        requires face { face.0 < length self.now.faces }
        requires corner { corner < length (labels_at self.now face.0) }
        ensures { result ≡ slice_index (labels_at self.now face.0) corner }
    {
        self.labels[start_of(&self.ends, face) + corner as usize]
    }

    /// The labels of a face.
    pub fn labels(&self, face: FaceName) -> &[u32]
        requires { face.0 < length self.now.faces }
        ensures { result.now ≡ labels_at self.now face.0 }
    {
        let end = self.ends[face.0 as usize];
        part(&self.labels, start_of(&self.ends, face), end)
    }

    /// The places of all spokes.
    pub fn all_places(&self) -> &[u32]
        ensures places { result.now ≡ self.now.places }
        // What holds of every labelling.
        ensures few { length result.now < 2 ^ 32 }
    {
        self.places.as_slice()
    }

    /// The number of places.
    pub fn places(&self) -> u32
        ensures { result ≡ length self.now.places }
    {
        self.places.len() as u32
    }

    /// The place of a spoke.
    pub fn place(&self, k: u32) -> u32
        requires { k < length self.now.places }
        ensures { result ≡ slice_index self.now.places k }
    {
        self.places[k as usize]
    }
}

/// Where the labels of a face start: where those of the face before it end.
fn start_of(ends: &[usize], face: FaceName) -> usize
    requires { face.0 < length ends.now }
    ensures { result ≡ slice_index (0 ∷ ends.now) face.0 }
{
    if face.0 == 0 {
        0
    } else {
        ends[face.0 as usize - 1]
    }
}

/// The part of a list between two places.
fn part(labels: &[u32], from: usize, to: usize) -> &[u32]
    requires rises { from ≤ to }
    requires within { to ≤ length labels.now }
    ensures { result.now ≡ take (to - from) (drop from labels.now) }
{
    &labels[from..to]
}
