//! The command `certify`: a certificate for what `decide` answers.
ghost use Rattle.std.specs.Prelude.{ℕ, List, slice_index, IfOk};
ghost use Rattle.surf_model.specs.FaceLists.{FaceList};
ghost use Rattle.surf_model.specs.Moves.{Homotopic};
ghost use Rattle.surf_model.specs.Walks.{IsWalk, HaveCommonEnds};
ghost use Rattle.polygon_cut.specs.Polygons.{IsPolygonOf};
ghost use Rattle.commands.specs.Certificates.{IsShown, decision_of};
ghost use Rattle.certify_commands.specs.Certify.{IsWithinLimits, certificate_answer};
ghost use Rattle.certify_commands.specs.Certify as of_certify;
ghost use Rattle.closed_surfaces.specs.SignedSurfaces.{IsComponentOf, IsSigned, surface_of};
ghost use Rattle.certify_commands.specs.Findings.{IsFinding};
ghost use Rattle.commands.specs.Replies.{IsReplyTo, Runs};

use crate::finding::Finding;
use closed_surfaces::{Component, SignedMesh};
use commands::{Certificate, Limits, Reply, Stop, Text, read_pair};
use halfedge_map::Surface;
use labellings::{GoodLabelling, word_of};
use move_lifting::{MOST_LIFTED_DARTS, MOST_LIFTED_SIDES, lift};
use polygon_cut::{Polygon, cut};
use quad_system::FromPolygon;
use std::alloc::{AllocError, Global};
use surf_io::Shelf;
use surf_model::Walk;
use surface_commands::read_surface;
use tree_cotree::split_edges;

/// What lists of moves are made for.
pub const CERTIFY_LIMITS: Limits = Limits {
    sides: MOST_LIFTED_SIDES,
    darts: MOST_LIFTED_DARTS,
};

/// A certificate for the two walks in the file `walks` on the surface in the file `mesh`: moves that lead from the first to
/// the second, or a denial that holds.
pub fn certify<S: Shelf>(
    alloc: Global,
    shelf: &mut S,
    mesh: &str,
    walks: &str,
) -> Result<Reply, Stop>
    ensures { Runs S.held S.faults shelf.old shelf.new (λ files. of_certify.certify files mesh.now walks.now) result }
{
    let surface = read_surface(alloc, shelf, mesh)?;
    let pair = read_pair(alloc, shelf, walks, &surface.sides)?;
    let first = pair.at(0);
    let second = pair.at(1);
    CERTIFY_LIMITS.check("certify", &surface.faces, first, second)?;
    let shown = find_certificate(alloc, surface, first, second)?;
    Ok(reply_with(shown))
}

/// The reply that a certificate is.
fn reply_with(shown: Certificate) -> Reply
    ensures { (mesh : FaceList) (first second : List ℕ) → IsShown mesh first second shown
        → IsReplyTo (certificate_answer mesh first second (decision_of shown)) result }
{
    match shown {
        Certificate::Moves(_) => Reply::Yes(Text::Certificate(shown)),
        Certificate::Denial(_) => Reply::No(Text::Certificate(shown)),
    }
}

/// A certificate for two walks of a surface with common ends. It is found on the component in which they lie.
pub fn find_certificate(
    alloc: Global,
    surface: SignedMesh,
    first: &Walk,
    second: &Walk,
) -> Result<Certificate, AllocError>
    requires signed { IsSigned surface }
    requires first { IsWalk surface.faces first.now }
    requires second { IsWalk surface.faces second.now }
    requires ends { HaveCommonEnds first.now second.now }
    requires limits { IsWithinLimits surface.faces first.now second.now }
    ensures { IfOk result (IsShown surface.faces first.now second.now) }
{
    let component = Component::of_walk(alloc, surface, first)?;
    let shown = certificate_on(alloc, &component, first, second);
    // By a call, which is proved once, and not here again.
    drop(component);
    shown
}

/// A certificate for two walks that lie in a component, which shows what holds of them on the whole mesh.
fn certificate_on(
    alloc: Global,
    component: &Component,
    first: &Walk,
    second: &Walk,
) -> Result<Certificate, AllocError>
    requires component { (mesh : FaceList) × (v : ℕ) × IsComponentOf mesh v component.now }
    requires first { IsWalk (surface_of component.now).mesh first.now }
    requires second { IsWalk (surface_of component.now).mesh second.now }
    requires ends { HaveCommonEnds first.now second.now }
    requires limits { IsWithinLimits (surface_of component.now).mesh first.now second.now }
    ensures { (mesh : FaceList) → IsComponentOf mesh (slice_index first.now 0) component.now → IsWalk mesh first.now
        → IsWalk mesh second.now → IfOk result (IsShown mesh first.now second.now) }
{
    let finding = find(alloc, component.surface(), first, second)?;
    finding.for_mesh(alloc, component)
}

/// What tells of two walks of a connected surface with common ends whether they are homotopic.
fn find(
    alloc: Global,
    surface: &Surface,
    first: &Walk,
    second: &Walk,
) -> Result<Finding, AllocError>
    requires first { IsWalk surface.now.mesh first.now }
    requires second { IsWalk surface.now.mesh second.now }
    requires ends { HaveCommonEnds first.now second.now }
    requires limits { IsWithinLimits surface.now.mesh first.now second.now }
    ensures { IfOk result (IsFinding surface.now first.now second.now) }
{
    // The proof reads what holds of every surface.
    let _ = surface.faces();
    let split = split_edges(alloc, surface)?;
    let polygon = cut(alloc, surface, &split)?;
    if let Some(list) = lift(alloc, surface, &split, &polygon, first, second)? {
        return Ok(Finding::Moves(list));
    }
    find_words(alloc, surface, polygon, first, second)
}

/// The words of two walks of a surface, where no moves lead from the one to the other.
fn find_words(
    alloc: Global,
    surface: &Surface,
    polygon: Polygon,
    first: &Walk,
    second: &Walk,
) -> Result<Finding, AllocError>
    requires cut { IsPolygonOf surface.now polygon }
    requires first { IsWalk surface.now.mesh first.now }
    requires second { IsWalk surface.now.mesh second.now }
    requires ends { HaveCommonEnds first.now second.now }
    requires apart { Homotopic surface.now.mesh first.now second.now → ⊥ }
    ensures { IfOk result (IsFinding surface.now first.now second.now) }
{
    let faces = surface.faces();
    let sides = surface.sides();
    let good = GoodLabelling::from_spent_polygon(alloc, surface, polygon)?;
    let first_word = word_of(alloc, faces, sides, &good, first)?;
    let second_word = word_of(alloc, faces, sides, &good, second)?;
    Ok(Finding::Words {
        good,
        first: first_word,
        second: second_word,
    })
}
