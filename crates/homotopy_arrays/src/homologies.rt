//! Whether walks that lie in arrays are homologous, with numbers that show it.
ghost use Rattle.std.specs.Prelude.{◌≡◌, ◌⊎◌, ◌+◌, ◌≤◌, ℕ, List, IfNone, IfOk, IfSome, MatchResult, slice_index};
ghost use Rattle.surf_model.specs.Edges.{IsTableOf};
ghost use Rattle.surf_model.specs.FaceLists.{FaceList};
ghost use Rattle.surf_model.specs.Walks.{darts};
ghost use Rattle.doubling.specs.Doubles.{double_of};
ghost use Rattle.homology.specs.declared.certificate.TheConstants.{MOST_NUMBER};
ghost use Rattle.closed_surfaces.specs.SignedSurfaces.{IsComponentOf, IsSigned};
ghost use Rattle.homotopy_arrays.specs.Homologies.{AreLong, AreShown, AreShownAs, IsAsked, IsHomologyFault, IsHomologyFaultOfPair, IsHomologyFaultOnAny, ShowsWalks, ShowsWalksOnAny, Sized, mesh_asked, no_memory};
ghost use Rattle.homotopy_arrays.specs.Compact.{IsOrientableCompactFault, IsSignedOf};
ghost use Rattle.homotopy_arrays.specs.Surfaces.{EndsOn};
ghost use Rattle.folded_homology.specs.FoldedNumbers.{AreFolded};
ghost use Rattle.compact_surfaces.specs.Signed.{IsBoundedFor};
ghost use Rattle.homotopy_arrays.specs.MeshArrays.{mesh_in_arrays};
ghost use Rattle.homotopy_arrays.specs.Pairs.{AreWalks};

use crate::fault::Fault;
use crate::mesh::{MeshArrays, mesh_of_arrays};
use crate::pair::{Checked, WalkFault, check_walks};
use crate::surface::surface_of_arrays;
use crate::verify::Tabled;
use closed_surfaces::{Component, SignedMesh};
use compact_surfaces::{Bounded, SignedCompact};
use folded_homology::fold;
use homology::{HomologyNumbers, MOST_NUMBER, numbers_of};
use homology_commands::show_homology::certificate_on;
use std::alloc::{AllocError, Global};
use surf_model::{Faces, Sides, Walk};

/// Why nothing is shown of two walks.
#[derive(Clone, Copy, Debug, PartialEq, Eq)]
pub enum HomologyFault {
    /// The arrays are no orientable surface of the kind that is asked about, for this fault, or there is no memory.
    Mesh(Fault),
    /// The two walks are no walks of the surface with common ends, for this fault.
    Walks(WalkFault),
    /// The walks have so many darts together, more than the greatest number that is written.
    Darts(u32),
}

impl From<Fault> for HomologyFault {
    ghost use Rattle.homotopy_arrays.specs.declared.homologies.HomologyFault.TheVariants.{Mesh};

    ghost from_gives = { λ first fault. fault ≡ Mesh first };

    fn from(fault: Fault) -> HomologyFault {
        HomologyFault::Mesh(fault)
    }
}

impl From<AllocError> for HomologyFault {
    ghost use Rattle.homotopy_arrays.specs.Homologies.{no_memory};

    ghost from_gives = { λ _ fault. fault ≡ no_memory };

    fn from(_: AllocError) -> HomologyFault {
        HomologyFault::Mesh(Fault::OutOfMemory)
    }
}

/// Whether two walks of the orientable closed surface that the arrays are are homologous, with the numbers that show it: what the command
/// `homology` lists.
pub fn homology_arrays(
    alloc: Global,
    mesh: MeshArrays<'_>,
    first: &[u32],
    second: &[u32],
) -> Result<HomologyNumbers, HomologyFault>
    ensures { MatchResult result (ShowsWalks (mesh_in_arrays mesh.entry) first.now second.now)
        (IsHomologyFault (mesh_in_arrays mesh.entry) first.now second.now) }
{
    let surface = surface_of_arrays(alloc, mesh)?;
    show_on(alloc, SignedCompact::Closed(surface), first, second)
}

/// The same of an orientable compact surface, in any number of pieces, closed or with boundary.
///
/// A surface with boundary is asked by way of its double, and the numbers found there are folded: a number of a chain can become as large
/// as two that `homology_arrays` gives.
pub fn homology_any_arrays(
    alloc: Global,
    mesh: MeshArrays<'_>,
    first: &[u32],
    second: &[u32],
) -> Result<HomologyNumbers, HomologyFault>
    ensures { MatchResult result (ShowsWalksOnAny (mesh_in_arrays mesh.entry) first.now second.now)
        (IsHomologyFaultOnAny (mesh_in_arrays mesh.entry) first.now second.now) }
{
    let surface = signed_of_arrays(alloc, mesh)?;
    show_on(alloc, surface, first, second)
}

/// The orientable compact surface that the arrays are, or what is first wrong.
fn signed_of_arrays(alloc: Global, mesh: MeshArrays<'_>) -> Result<SignedCompact, Fault>
    ensures { EndsOn (mesh_in_arrays mesh.entry) IsSignedOf IsOrientableCompactFault result }
{
    let faces = mesh_of_arrays(alloc, mesh)?;
    Ok(SignedCompact::of(alloc, faces)?)
}

/// The numbers for two walks of a surface.
fn show_on(
    alloc: Global,
    surface: SignedCompact,
    first: &[u32],
    second: &[u32],
) -> Result<HomologyNumbers, HomologyFault>
    requires { IsAsked surface }
    ensures { MatchResult result (AreShownAs (Sized surface) (mesh_asked surface) first.now second.now)
        (IsHomologyFaultOfPair (mesh_asked surface) first.now second.now) }
{
    match check_walks(alloc, table_of(&surface), first, second)? {
        Checked::Pair(walks) => show_walks(alloc, surface, walks.at(0), walks.at(1)),
        Checked::Faulty(fault) => Err(HomologyFault::Walks(fault)),
    }
}

/// The edge table of a surface.
fn table_of(surface: &SignedCompact) -> &Sides
    requires { IsAsked surface.now }
    ensures { IsTableOf (mesh_asked surface.now) result.now }
{
    match surface {
        SignedCompact::Closed(closed) => &closed.sides,
        SignedCompact::Bounded(bounded) => &bounded.sides,
    }
}

/// The numbers for two walks of the surface with common ends.
fn show_walks(
    alloc: Global,
    surface: SignedCompact,
    first: &Walk,
    second: &Walk,
) -> Result<HomologyNumbers, HomologyFault>
    requires signed { IsAsked surface }
    requires walks { AreWalks (mesh_asked surface) first.now second.now }
    ensures { MatchResult result (AreShownAs (Sized surface) (mesh_asked surface) first.now second.now)
        (λ fault. (fault ≡ no_memory) ⊎ AreLong first.now second.now fault) }
{
    match long_fault(first, second) {
        None => Ok(find_numbers(alloc, surface, first, second)?),
        Some(fault) => Err(fault),
    }
}

/// Whether two walks have too many darts together.
fn long_fault(first: &Walk, second: &Walk) -> Option<HomologyFault>
    ensures some { IfSome result (AreLong first.now second.now) }
    ensures none { IfNone result (darts first.now + darts second.now ≤ MOST_NUMBER) }
{
    let darts = first.darts() + second.darts();
    if darts > MOST_NUMBER {
        return Some(HomologyFault::Darts(darts));
    }
    None
}

/// The numbers for two walks that are not too long.
fn find_numbers(
    alloc: Global,
    surface: SignedCompact,
    first: &Walk,
    second: &Walk,
) -> Result<HomologyNumbers, AllocError>
    requires signed { IsAsked surface }
    requires walks { AreWalks (mesh_asked surface) first.now second.now }
    requires few { darts first.now + darts second.now ≤ MOST_NUMBER }
    ensures { IfOk result (AreShownAs (Sized surface) (mesh_asked surface) first.now second.now) }
{
    match surface {
        SignedCompact::Closed(closed) => find_closed(alloc, closed, first, second),
        SignedCompact::Bounded(bounded) => find_bounded(alloc, bounded, first, second),
    }
}

/// The numbers on a closed surface. They are found on the component in which the walks lie.
fn find_closed(
    alloc: Global,
    surface: SignedMesh,
    first: &Walk,
    second: &Walk,
) -> Result<HomologyNumbers, AllocError>
    requires signed { IsSigned surface }
    requires walks { AreWalks surface.faces first.now second.now }
    requires few { darts first.now + darts second.now ≤ MOST_NUMBER }
    ensures { IfOk result (AreShown surface.faces first.now second.now) }
{
    let component = Component::of_walk(alloc, surface, first)?;
    let numbers = numbers_in(alloc, &component, first, second);
    // By a call, which is proved once, and not here again.
    drop(component);
    numbers
}

/// The numbers on a surface with boundary: those on its double, folded.
fn find_bounded(
    alloc: Global,
    surface: Bounded,
    first: &Walk,
    second: &Walk,
) -> Result<HomologyNumbers, AllocError>
    requires signed { IsBoundedFor surface.faces surface }
    requires walks { AreWalks surface.faces first.now second.now }
    requires few { darts first.now + darts second.now ≤ MOST_NUMBER }
    ensures { IfOk result (AreShownAs AreFolded surface.faces first.now second.now) }
{
    let Bounded {
        faces,
        sides,
        double,
    } = surface;
    // Its memory is for the component.
    drop(sides);
    let found = find_closed(alloc, double, first, second);
    let numbers = fold_found(found, &faces);
    // By a call, which is proved once, and not here again.
    drop(faces);
    numbers
}

/// What was found on the double of a mesh, folded.
fn fold_found(
    found: Result<HomologyNumbers, AllocError>,
    faces: &Faces,
) -> Result<HomologyNumbers, AllocError>
    requires { (first second : List ℕ) × AreWalks faces.now first second × IfOk found (AreShown (double_of faces.now) first second) }
    ensures { (first second : List ℕ) → AreWalks faces.now first second → IfOk found (AreShown (double_of faces.now) first second)
        → IfOk result (AreShownAs AreFolded faces.now first second) }
{
    let numbers = found?;
    Ok(fold(numbers, faces))
}

/// The numbers for two walks that lie in a component, which show what holds of them on the whole mesh.
fn numbers_in(
    alloc: Global,
    component: &Component,
    first: &Walk,
    second: &Walk,
) -> Result<HomologyNumbers, AllocError>
    requires few { darts first.now + darts second.now ≤ MOST_NUMBER }
    requires walks { (mesh : FaceList) × IsComponentOf mesh (slice_index first.now 0) component.now × AreWalks mesh first.now second.now }
    ensures { (mesh : FaceList) → IsComponentOf mesh (slice_index first.now 0) component.now → AreWalks mesh first.now second.now
        → IfOk result (AreShown mesh first.now second.now) }
{
    let shown = certificate_on(alloc, component, first, second)?;
    let whole = whole_of(component);
    let numbers = numbers_of(alloc, whole.faces, whole.sides, &shown);
    drop(shown);
    numbers
}

/// The mesh of which this is a component.
fn whole_of(component: &Component) -> Tabled<'_>
    requires { (mesh : FaceList) × (v : ℕ) × IsComponentOf mesh v component.now }
    ensures faces { (mesh : FaceList) (v : ℕ) → IsComponentOf mesh v component.now → result.faces.now ≡ mesh }
    ensures table { IsTableOf result.faces.now result.sides.now }
{
    match component {
        Component::Whole(surface) => Tabled {
            faces: surface.faces(),
            sides: surface.sides(),
        },
        Component::Alone(part) => Tabled {
            faces: &part.whole.faces,
            sides: &part.whole.sides,
        },
    }
}
