//! Lists of moves on compact surfaces: in any number of pieces, closed or with boundary, orientable or not.
//!
//! `list_if_homotopic` looks for a list on the orientable closed surface that answers for such a surface (`compact_surfaces`), and makes of
//! it one on the mesh that was given: a list on a cover is lowered, and one on the double folded (`folded_lists`). Proved: there is a list
//! exactly where the two walks are homotopic on the mesh, and it leads there from the first to the second, with its exact peak; a surface
//! that answers, or walks, too large for it are told, and what is first over its limit.
//!
//!     let surface = AnsweredSurface::of(alloc, faces)?;
//!     let list = list_if_homotopic(alloc, surface, &first, &second)?;
#![tactic(auto)]

ghost use Rattle.std.specs.Prelude.{◌≡◌, ◌≤◌, ℕ, List, None, IfErr, IfOk, OnOk};
ghost use Rattle.surf_model.specs.Edges.{IsTableOf};
ghost use Rattle.surf_model.specs.PeakedLists.{LeadsAtPeak};
ghost use Rattle.surf_model.specs.Walks.{AreWalkPair, IsWalk};
ghost use Rattle.surf_model.specs.declared.limits.TheConstants.{MOST_PEAK};
ghost use Rattle.certify_commands.specs.Certify.{IsWithinLimits, certify_limits};
ghost use Rattle.closed_surfaces.specs.SignedSurfaces.{IsSigned};
ghost use Rattle.commands.specs.Limits.{first_over};
ghost use Rattle.compact_surfaces.specs.Answered.{IsAnsweredManifold, IsCovered, mesh_of_answered};
ghost use Rattle.doubling.specs.Doubles.{double_of};
ghost use Rattle.folded_lists.specs.FoldedLists.{LeadsFolded};
ghost use Rattle.answered_lists.specs.AnsweredLists.{AnswersForItsMesh, IsListFault, IsListFound, mesh_answering, mesh_of_surface};

use certify_commands::{CERTIFY_LIMITS, find_certificate};
use closed_surfaces::SignedMesh;
use commands::{Certificate, OverLimit};
use compact_surfaces::{AnsweredManifold, AnsweredSurface, CoveredMesh, TabledMesh};
use doubling::double;
use folded_lists::{fold, lower};
use orientation_cover::lift;
use std::alloc::{AllocError, Global};
use surf_model::{MoveList, Sides, Walk};
use walk_translate::have_common_ends;

/// Why no list is looked for.
#[derive(Clone, Copy, Debug, PartialEq, Eq)]
pub enum ListFault {
    /// The orientable closed surface that answers, or the two walks, are too large for lists of moves.
    Over(OverLimit),
    /// There is no memory.
    OutOfMemory,
}

impl From<AllocError> for ListFault {
    ghost use Rattle.std.specs.Prelude.{◌≡◌};
    ghost use Rattle.answered_lists.specs.declared.ListFault.TheVariants.{OutOfMemory};

    ghost from_gives = { λ _ fault. fault ≡ OutOfMemory };

    fn from(_: AllocError) -> ListFault {
        ListFault::OutOfMemory
    }
}

/// A list of moves that leads on a compact surface from the first of two walks with common ends to the second, or `None` where they are
/// not homotopic. It takes the time and the memory of `find_certificate` on the surface that answers, and for a surface with boundary its
/// double a second time.
pub fn list_if_homotopic(
    alloc: Global,
    surface: AnsweredSurface,
    first: &Walk,
    second: &Walk,
) -> Result<Option<MoveList>, ListFault>
    requires surface { AnswersForItsMesh surface }
    requires walks { AreWalkPair (mesh_of_surface surface) first.now second.now }
    ensures list { IfOk result (IsListFound (mesh_of_surface surface) first.now second.now) }
    ensures within { OnOk result (first_over certify_limits (mesh_answering surface.closed) first.now second.now ≡ None) }
    ensures fault { IfErr result (IsListFault (mesh_answering surface.closed) first.now second.now) }
{
    if let Some(over) = over_limit(&surface.closed, first, second) {
        return Err(ListFault::Over(over));
    }
    let list = match list_on_closed(alloc, surface.closed, first, second)? {
        Some(list) => list,
        None => return Ok(None),
    };
    match surface.own {
        Some(own) => Ok(Some(list_folded(alloc, &own, first, &list)?)),
        None => Ok(Some(list)),
    }
}

/// What is first over its limit, of the surface that answers for a closed manifold, and two walks.
fn over_limit(closed: &AnsweredManifold, first: &Walk, second: &Walk) -> Option<OverLimit>
    ensures { result ≡ first_over certify_limits (mesh_answering closed.now) first.now second.now }
{
    match closed {
        AnsweredManifold::Itself(mesh) => CERTIFY_LIMITS.first_over(&mesh.faces, first, second),
        AnsweredManifold::Covered(mesh) => {
            CERTIFY_LIMITS.first_over(&mesh.cover.faces, first, second)
        }
    }
}

/// A list on a closed manifold, by what answers for it.
fn list_on_closed(
    alloc: Global,
    closed: AnsweredManifold,
    first: &Walk,
    second: &Walk,
) -> Result<Option<MoveList>, AllocError>
    requires answered { IsAnsweredManifold closed }
    requires walks { AreWalkPair (mesh_of_answered closed) first.now second.now }
    requires limits { IsWithinLimits (mesh_answering closed) first.now second.now }
    ensures { IfOk result (IsListFound (mesh_of_answered closed) first.now second.now) }
{
    match closed {
        AnsweredManifold::Itself(mesh) => list_on_signed(alloc, mesh, first, second),
        AnsweredManifold::Covered(mesh) => list_by_cover(alloc, mesh, first, second),
    }
}

/// A list on an orientable closed surface.
fn list_on_signed(
    alloc: Global,
    mesh: SignedMesh,
    first: &Walk,
    second: &Walk,
) -> Result<Option<MoveList>, AllocError>
    requires signed { IsSigned mesh }
    requires walks { AreWalkPair mesh.faces first.now second.now }
    requires limits { IsWithinLimits mesh.faces first.now second.now }
    ensures { IfOk result (IsListFound mesh.faces first.now second.now) }
{
    match find_certificate(alloc, mesh, first, second)? {
        Certificate::Moves(list) => Ok(Some(list)),
        Certificate::Denial(_) => Ok(None),
    }
}

/// A list on a closed manifold without coherent signs, below one on its cover.
fn list_by_cover(
    alloc: Global,
    covered: CoveredMesh,
    first: &Walk,
    second: &Walk,
) -> Result<Option<MoveList>, AllocError>
    requires covered { IsCovered covered }
    requires walks { AreWalkPair covered.mesh.faces first.now second.now }
    requires limits { IsWithinLimits covered.cover.faces first.now second.now }
    ensures { IfOk result (IsListFound covered.mesh.faces first.now second.now) }
{
    let mesh = covered.mesh;
    let one = lift(alloc, &mesh.faces, &mesh.sides, &covered.ways, first)?;
    let other = lift(alloc, &mesh.faces, &mesh.sides, &covered.ways, second)?;
    // The lifts begin together, and of homotopic walks they end together.
    if !have_common_ends(&one, &other) {
        return Ok(None);
    }
    match list_on_signed(alloc, covered.cover, &one, &other)? {
        Some(list) => Ok(Some(lower(alloc, &mesh.faces, &list)?)),
        None => Ok(None),
    }
}

/// The fold of a list on the double of a mesh, which is made once more.
fn list_folded(
    alloc: Global,
    own: &TabledMesh,
    first: &Walk,
    list: &MoveList,
) -> Result<MoveList, AllocError>
    requires table { IsTableOf own.now.faces own.now.sides }
    requires walk { IsWalk own.now.faces first.now }
    requires leads { (second : List ℕ) × LeadsAtPeak (double_of own.now.faces) first.now list.now second }
    requires peak { list.now.peak ≤ MOST_PEAK }
    ensures leads { IfOk result (LeadsFolded own.now.faces first.now list.now) }
    ensures peak { IfOk result (λ below. below.peak ≤ list.now.peak) }
{
    // It was made before, so that it is no larger than a mesh may be.
    let Ok(double) = double(alloc, &own.faces, &own.sides) else {
        return Err(AllocError);
    };
    let sides = Sides::build(alloc, &double)?;
    fold(alloc, &own.faces, &double, &sides, first, list)
}
