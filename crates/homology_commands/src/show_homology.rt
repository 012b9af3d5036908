//! The command `homology`: whether two walks of a surface are homologous, with a certificate.
ghost use Rattle.std.specs.Prelude.{◌+◌, ◌≤◌, ℕ, List, slice_index, IfOk};
ghost use Rattle.surf_model.specs.FaceLists.{FaceList};
ghost use Rattle.surf_model.specs.Walks.{HaveCommonEnds, IsWalk, darts};
ghost use Rattle.homology.specs.declared.certificate.TheConstants.{MOST_NUMBER};
ghost use Rattle.closed_surfaces.specs.SignedSurfaces.{IsComponentOf, IsSigned, surface_of};
ghost use Rattle.commands.specs.HomologyCertificates.{ShowsHomology, answer_in};
ghost use Rattle.commands.specs.Replies.{IsReplyTo, Runs};
ghost use Rattle.homology_commands.specs.Homology as of_homology;
ghost use Rattle.homology_commands.specs.Homology.{homology_answer};

use crate::listing::certificate_of;
use closed_surfaces::{Component, SignedMesh};
use commands::{Reply, Stop, Text, read_pair};
use homology::HomologyCert;
use homology_deciding::homologous;
use std::alloc::{AllocError, Global};
use surf_io::Shelf;
use surf_model::Walk;
use surface_commands::read_surface;
use tree_cotree::split_edges;

/// A certificate that shows whether the two walks in the file `walks` are homologous on the surface in the file `mesh`: a chain, or a
/// cocycle that separates them.
pub fn show_homology<S: Shelf>(
    alloc: Global,
    shelf: &mut S,
    mesh: &str,
    walks: &str,
) -> Result<Reply, Stop>
    ensures { Runs S.held S.faults shelf.old shelf.new (λ files. of_homology.homology files mesh.now walks.now) result }
{
    let surface = read_surface(alloc, shelf, mesh)?;
    let pair = read_pair(alloc, shelf, walks, &surface.sides)?;
    let shown = find_certificate(alloc, surface, pair.at(0), pair.at(1))?;
    Ok(reply_with(shown))
}

/// A certificate for two walks of a surface with common ends. It is found on the component in which they lie.
pub fn find_certificate(
    alloc: Global,
    surface: SignedMesh,
    first: &Walk,
    second: &Walk,
) -> Result<HomologyCert, AllocError>
    requires signed { IsSigned surface }
    requires first { IsWalk surface.faces first.now }
    requires second { IsWalk surface.faces second.now }
    requires ends { HaveCommonEnds first.now second.now }
    requires few { darts first.now + darts second.now ≤ MOST_NUMBER }
    ensures { IfOk result (ShowsHomology surface.faces first.now second.now) }
{
    let component = Component::of_walk(alloc, surface, first)?;
    let shown = certificate_on(alloc, &component, first, second);
    // By a call, which is proved once, and not here again.
    drop(component);
    shown
}

/// A certificate for two walks that lie in a component, which shows what holds of them on the whole mesh.
pub fn certificate_on(
    alloc: Global,
    component: &Component,
    first: &Walk,
    second: &Walk,
) -> Result<HomologyCert, AllocError>
    requires component { (mesh : FaceList) × (v : ℕ) × IsComponentOf mesh v component.now }
    requires first { IsWalk (surface_of component.now).mesh first.now }
    requires second { IsWalk (surface_of component.now).mesh second.now }
    requires ends { HaveCommonEnds first.now second.now }
    requires few { darts first.now + darts second.now ≤ MOST_NUMBER }
    ensures { (mesh : FaceList) → IsComponentOf mesh (slice_index first.now 0) component.now → IsWalk mesh first.now
        → IsWalk mesh second.now → IfOk result (ShowsHomology mesh first.now second.now) }
{
    let surface = component.surface();
    let split = split_edges(alloc, surface)?;
    let proof = homologous(alloc, surface, &split, first, second)?;
    certificate_of(alloc, component, &proof)
}

/// The reply that a certificate is.
fn reply_with(shown: HomologyCert) -> Reply
    ensures { (mesh : FaceList) (first second : List ℕ) → ShowsHomology mesh first second shown
        → IsReplyTo (homology_answer mesh first second (answer_in shown)) result }
{
    match shown {
        HomologyCert::Chain(_) => Reply::Yes(Text::Homology(shown)),
        HomologyCert::Cocycle(_) => Reply::No(Text::Homology(shown)),
    }
}
