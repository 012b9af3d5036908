//! Certificates of homology: the numbers of a chain or of a cocycle, each with the face or the edge that has it.
ghost use Rattle.std.specs.Prelude.{◌≡◌, ◌+◌, ◌<◌, ◌≤◌, ◌^◌, [], ◌∷◌, ◌++◌, true, if◌then◌else◌, length, slice_get, All, OnOk, OnErr, Some, unsigned_abs};
ghost use Rattle.surf_model.specs.Edges.{IsPairBefore};
ghost use Rattle.homology.specs.declared.certificate.TheConstants.{MOST_NUMBER};
ghost use Rattle.homology.specs.declared.certificate.FaceNumber.{FaceNumber};
ghost use Rattle.homology.specs.declared.certificate.EdgeNumber.{EdgeNumber};

use std::alloc::{AllocError, Global};
use std::marker::Model;
use surf_model::{FaceName, VertexName};

/// The greatest size of a number in a certificate.
pub const MOST_NUMBER: u32 = 2_147_483_647;

/// The number of a face in a chain.
#[derive(Clone, Copy, Debug, PartialEq, Eq)]
pub struct FaceNumber {
    pub face: FaceName,
    pub number: i64,
}

/// The number of an edge in a cocycle, read from the lower vertex to the higher one.
#[derive(Clone, Copy, Debug, PartialEq, Eq)]
pub struct EdgeNumber {
    pub low: VertexName,
    pub high: VertexName,
    pub number: i64,
}

/// The numbers of a chain, by rising faces. A face that is not listed has the number 0.
#[derive(Debug, Drop)]
pub struct ChainNumbers {
    lines: Vec<FaceNumber>,
}

impl Model for ChainNumbers {
    ghost use Rattle.std.specs.Prelude.{List};
    ghost use Rattle.homology.specs.Certificates.{AreFaceNumbers};
    ghost use Rattle.homology.specs.declared.certificate.FaceNumber.{FaceNumber};

    ghost Value = { List FaceNumber };

    ghost view = { λ a. a.lines.items };

    ghost invariant = { λ a. AreFaceNumbers a.lines.items };
}

impl ChainNumbers {
    ghost use Rattle.homology.specs.Certificates.{AreFaceNumbers};

    /// No numbers. It takes no memory.
    pub fn new(alloc: Global) -> ChainNumbers
        ensures { result ≡ [] }
    {
        ChainNumbers {
            lines: Vec::new(alloc),
        }
    }

    /// Puts the number of a face last.
    pub fn push(&mut self, line: FaceNumber) -> Result<(), AllocError>
        requires above { All (λ (other : FaceNumber). other.face.0 < line.face.0) self.old }
        requires small { unsigned_abs line.number ≤ MOST_NUMBER }
        requires few { length self.old + 1 < 2 ^ 32 }
        ensures ok { OnOk result (self.new ≡ self.old ++ line ∷ []) }
        ensures err { OnErr result (self.new ≡ self.old) }
    {
        self.lines.push(line)?;
        Ok(())
    }

    /// How many faces are listed.
    pub fn len(&self) -> u32
        ensures count { result ≡ length self.now }
        // What holds of all numbers of a chain.
        ensures valid { AreFaceNumbers self.now }
    {
        self.lines.len() as u32
    }

    /// Line `k`, counted from 0.
    pub fn at(&self, k: u32) -> FaceNumber
        requires { k < length self.now }
        ensures { slice_get self.now k ≡ Some result }
    {
        self.lines[k as usize]
    }
}

/// The numbers of a cocycle, by rising edges: by their lower and then their higher vertices. An edge that is not listed has
/// the number 0.
#[derive(Debug, Drop)]
pub struct CocycleNumbers {
    lines: Vec<EdgeNumber>,
}

impl Model for CocycleNumbers {
    ghost use Rattle.std.specs.Prelude.{List};
    ghost use Rattle.homology.specs.Certificates.{AreEdgeNumbers};
    ghost use Rattle.homology.specs.declared.certificate.EdgeNumber.{EdgeNumber};

    ghost Value = { List EdgeNumber };

    ghost view = { λ a. a.lines.items };

    ghost invariant = { λ a. AreEdgeNumbers a.lines.items };
}

impl CocycleNumbers {
    ghost use Rattle.homology.specs.Certificates.{AreEdgeNumbers};

    /// No numbers. It takes no memory.
    pub fn new(alloc: Global) -> CocycleNumbers
        ensures { result ≡ [] }
    {
        CocycleNumbers {
            lines: Vec::new(alloc),
        }
    }

    /// Puts the number of an edge last.
    pub fn push(&mut self, line: EdgeNumber) -> Result<(), AllocError>
        requires ordered { line.low.0 < line.high.0 }
        requires above { All (λ (other : EdgeNumber). IsPairBefore other.low.0 other.high.0 line.low.0 line.high.0) self.old }
        requires small { unsigned_abs line.number ≤ MOST_NUMBER }
        requires few { length self.old + 1 < 2 ^ 32 }
        ensures ok { OnOk result (self.new ≡ self.old ++ line ∷ []) }
        ensures err { OnErr result (self.new ≡ self.old) }
    {
        self.lines.push(line)?;
        Ok(())
    }

    /// How many edges are listed.
    pub fn len(&self) -> u32
        ensures count { result ≡ length self.now }
        // What holds of all numbers of a cocycle.
        ensures valid { AreEdgeNumbers self.now }
    {
        self.lines.len() as u32
    }

    /// Line `k`, counted from 0.
    pub fn at(&self, k: u32) -> EdgeNumber
        requires { k < length self.now }
        ensures { slice_get self.now k ≡ Some result }
    {
        self.lines[k as usize]
    }
}

/// A certificate: a chain, which shows that two walks are homologous, or a cocycle, which shows that they are not.
#[derive(Debug, Drop)]
pub enum HomologyCert {
    Chain(ChainNumbers),
    Cocycle(CocycleNumbers),
}

impl HomologyCert {
    ghost use Rattle.std.specs.Prelude.{◌≡◌, [], if◌then◌else◌};
    ghost use Rattle.homology.specs.MadeCertificates.{TakesEdge, TakesFace, with_edge, with_face_number};
    ghost use Rattle.homology.specs.declared.certificate.HomologyCert.TheVariants.{Chain, Cocycle};

    /// A chain or a cocycle with no numbers. It takes no memory.
    pub fn new(alloc: Global, chain: bool) -> HomologyCert
        ensures { result ≡ if chain then Chain [] else Cocycle [] }
    {
        if chain {
            HomologyCert::Chain(ChainNumbers::new(alloc))
        } else {
            HomologyCert::Cocycle(CocycleNumbers::new(alloc))
        }
    }

    /// Puts the number of a face last in a chain. Where memory runs out everything stays.
    pub fn push_face(&mut self, face: u32, number: i64) -> Result<(), AllocError>
        requires chain { TakesFace self.old face }
        requires small { unsigned_abs number ≤ MOST_NUMBER }
        ensures ok { OnOk result (self.new ≡ with_face_number self.old face number) }
        ensures err { OnErr result (self.new ≡ self.old) }
    {
        match self {
            HomologyCert::Chain(numbers) => numbers.push(FaceNumber {
                face: FaceName(face),
                number,
            }),
            HomologyCert::Cocycle(_) => unreachable!(),
        }
    }

    /// Puts the number of the edge of two vertices last in a cocycle. Where memory runs out everything stays.
    pub fn push_edge(&mut self, low: u32, high: u32, number: i64) -> Result<(), AllocError>
        requires cocycle { TakesEdge self.old low high }
        requires ordered { low < high }
        requires small { unsigned_abs number ≤ MOST_NUMBER }
        ensures ok { OnOk result (self.new ≡ with_edge self.old low high number) }
        ensures err { OnErr result (self.new ≡ self.old) }
    {
        match self {
            HomologyCert::Chain(_) => unreachable!(),
            HomologyCert::Cocycle(numbers) => numbers.push(EdgeNumber {
                low: VertexName(low),
                high: VertexName(high),
                number,
            }),
        }
    }
}
