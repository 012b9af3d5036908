//! What comes of chains and cocycles that lie in arrays.
ghost use Rattle.std.specs.Prelude.{◌≡◌, IfOk, MatchResult};
ghost use Rattle.surf_model.specs.Edges.{IsTableOf};
ghost use Rattle.surf_model.specs.Walks.{IsWalk};
ghost use Rattle.homotopy_arrays.specs.HomologyJudgements.{IsArrayVerdict, IsVerifyHomologyFault, IsVerifyHomologyFaultOn, JudgesNumbers, JudgesNumbersOn};
ghost use Rattle.homotopy_arrays.specs.MeshArrays.{mesh_in_arrays};

use crate::fault::Fault;
use crate::mesh::{MeshArrays, mesh_of_arrays};
use crate::pair::{Checked, WalkFault, check_walks};
use crate::verify::Tabled;
use homology::{ArrayVerdict, check_chain_array, check_cocycle_array};
use std::alloc::{AllocError, Global};
use surf_model::{Faces, Sides, Walk};

/// What numbers are to show of two walks.
#[derive(Clone, Copy, Debug, PartialEq, Eq)]
pub enum HomologyClaim {
    /// That they are homologous: there is a number for each face, and these are to be a chain for them.
    Homologous,
    /// That they are not: there is a number for each side, face after face, and these are to be those of a cocycle that separates them.
    NotHomologous,
}

/// Why numbers are not judged.
#[derive(Clone, Copy, Debug, PartialEq, Eq)]
pub enum VerifyHomologyFault {
    /// The arrays are no mesh, for this fault, or there is no memory.
    Mesh(Fault),
    /// The two walks are no walks of the mesh with common ends, for this fault.
    Walks(WalkFault),
}

impl From<Fault> for VerifyHomologyFault {
    ghost use Rattle.homotopy_arrays.specs.declared.verify_homology.VerifyHomologyFault.TheVariants.{Mesh};

    ghost from_gives = { λ first fault. fault ≡ Mesh first };

    fn from(fault: Fault) -> VerifyHomologyFault {
        VerifyHomologyFault::Mesh(fault)
    }
}

impl From<AllocError> for VerifyHomologyFault {
    ghost use Rattle.homotopy_arrays.specs.HomologyJudgements.{no_memory};

    ghost from_gives = { λ _ fault. fault ≡ no_memory };

    fn from(_: AllocError) -> VerifyHomologyFault {
        VerifyHomologyFault::Mesh(Fault::OutOfMemory)
    }
}

/// The verdict on numbers that are to show this of two walks of the mesh that the arrays are, which need be no surface.
pub fn verify_homology_arrays(
    alloc: Global,
    mesh: MeshArrays<'_>,
    first: &[u32],
    second: &[u32],
    claim: HomologyClaim,
    numbers: &[i64],
) -> Result<ArrayVerdict, VerifyHomologyFault>
    ensures { MatchResult result (JudgesNumbers (mesh_in_arrays mesh.entry) first.now second.now claim numbers.now)
        (IsVerifyHomologyFault (mesh_in_arrays mesh.entry) first.now second.now) }
{
    let faces = mesh_of_arrays(alloc, mesh)?;
    let judged = verify_on(alloc, &faces, first, second, claim, numbers);
    // By a call, which is proved once, and not here again.
    drop(faces);
    judged
}

/// The verdict on numbers for two walks of a mesh.
fn verify_on(
    alloc: Global,
    faces: &Faces,
    first: &[u32],
    second: &[u32],
    claim: HomologyClaim,
    numbers: &[i64],
) -> Result<ArrayVerdict, VerifyHomologyFault>
    ensures { MatchResult result (JudgesNumbersOn faces.now first.now second.now claim numbers.now)
        (IsVerifyHomologyFaultOn faces.now first.now second.now) }
{
    let sides = Sides::build(alloc, faces)?;
    let on = Tabled {
        faces,
        sides: &sides,
    };
    let judged = verify_walks(alloc, on, first, second, claim, numbers);
    // By a call, which is proved once, and not here again.
    drop(sides);
    judged
}

/// The verdict on numbers for two walks of the mesh that has this table.
fn verify_walks(
    alloc: Global,
    on: Tabled<'_>,
    first: &[u32],
    second: &[u32],
    claim: HomologyClaim,
    numbers: &[i64],
) -> Result<ArrayVerdict, VerifyHomologyFault>
    requires { IsTableOf on.faces.now on.sides.now }
    ensures { MatchResult result (JudgesNumbersOn on.entry.faces.now first.now second.now claim numbers.now)
        (IsVerifyHomologyFaultOn on.entry.faces.now first.now second.now) }
{
    match check_walks(alloc, on.sides, first, second)? {
        Checked::Pair(walks) => {
            let verdict = judge(alloc, on, walks.at(0), walks.at(1), claim, numbers)?;
            Ok(verdict)
        }
        Checked::Faulty(fault) => Err(VerifyHomologyFault::Walks(fault)),
    }
}

/// The verdict on numbers for two walks of the mesh with common ends.
fn judge(
    alloc: Global,
    on: Tabled<'_>,
    first: &Walk,
    second: &Walk,
    claim: HomologyClaim,
    numbers: &[i64],
) -> Result<ArrayVerdict, AllocError>
    requires table { IsTableOf on.faces.now on.sides.now }
    requires first { IsWalk on.faces.now first.now }
    requires second { IsWalk on.faces.now second.now }
    ensures { IfOk result (IsArrayVerdict on.entry.faces.now first.now second.now claim numbers.now) }
{
    match claim {
        HomologyClaim::Homologous => {
            check_chain_array(alloc, on.faces, on.sides, first, second, numbers)
        }
        HomologyClaim::NotHomologous => {
            check_cocycle_array(alloc, on.faces, on.sides, first, second, numbers)
        }
    }
}
