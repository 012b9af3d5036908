//! Certificates for walks that lie in arrays.
ghost use Rattle.std.specs.Prelude.{◌≡◌, ◌⊎◌, MatchResult, IfOk};
ghost use Rattle.commands.specs.Certificates.{certificate_text};
ghost use Rattle.closed_surfaces.specs.SignedSurfaces.{IsSigned};
ghost use Rattle.homotopy_arrays.specs.Certifications.{Certifies, IsCertificateFor, IsCertifyFault, IsFaultOfPair, IsCertifyLimitFault, no_memory};
ghost use Rattle.homotopy_arrays.specs.MeshArrays.{mesh_in_arrays};
ghost use Rattle.homotopy_arrays.specs.Pairs.{AreWalks};

use crate::fault::Fault;
use crate::mesh::MeshArrays;
use crate::pair::{Checked, WalkFault, check_walks};
use crate::surface::surface_of_arrays;
use certify_commands::{CERTIFY_LIMITS, find_certificate};
use closed_surfaces::SignedMesh;
use commands::{Certificate, OverLimit, Text, put_text};
use std::alloc::{AllocError, Global};
use surf_io::MemorySink;
use surf_model::Walk;

/// Why two walks have no certificate.
#[derive(Clone, Copy, Debug, PartialEq, Eq)]
pub enum CertifyFault {
    /// The arrays are no orientable closed surface, for this fault, or there is no memory.
    Mesh(Fault),
    /// The two walks are no walks of the surface with common ends, for this fault.
    Walks(WalkFault),
    /// The surface or the walks are too large for lists of moves.
    Over(OverLimit),
}

impl From<Fault> for CertifyFault {
    ghost use Rattle.homotopy_arrays.specs.declared.certify.CertifyFault.TheVariants.{Mesh};

    ghost from_gives = { λ first fault. fault ≡ Mesh first };

    fn from(fault: Fault) -> CertifyFault {
        CertifyFault::Mesh(fault)
    }
}

impl From<AllocError> for CertifyFault {
    ghost use Rattle.homotopy_arrays.specs.Certifications.{no_memory};

    ghost from_gives = { λ _ fault. fault ≡ no_memory };

    fn from(_: AllocError) -> CertifyFault {
        CertifyFault::Mesh(Fault::OutOfMemory)
    }
}

/// A certificate for two walks of the orientable closed surface that the arrays are: moves that lead from the first to the second, or a
/// denial that holds.
pub fn certify_arrays(
    alloc: Global,
    mesh: MeshArrays<'_>,
    first: &[u32],
    second: &[u32],
) -> Result<Certificate, CertifyFault>
    ensures { MatchResult result (Certifies (mesh_in_arrays mesh.entry) first.now second.now)
        (IsCertifyFault (mesh_in_arrays mesh.entry) first.now second.now) }
{
    let surface = surface_of_arrays(alloc, mesh)?;
    certify_on(alloc, surface, first, second)
}

/// A certificate for two walks of a surface.
fn certify_on(
    alloc: Global,
    surface: SignedMesh,
    first: &[u32],
    second: &[u32],
) -> Result<Certificate, CertifyFault>
    requires { IsSigned surface }
    ensures { MatchResult result (IsCertificateFor surface.faces first.now second.now) (IsFaultOfPair surface.faces first.now second.now) }
{
    match check_walks(alloc, &surface.sides, first, second)? {
        Checked::Pair(walks) => certify_walks(alloc, surface, walks.at(0), walks.at(1)),
        Checked::Faulty(fault) => Err(CertifyFault::Walks(fault)),
    }
}

/// A certificate for two walks of a surface with common ends.
fn certify_walks(
    alloc: Global,
    surface: SignedMesh,
    first: &Walk,
    second: &Walk,
) -> Result<Certificate, CertifyFault>
    requires signed { IsSigned surface }
    requires walks { AreWalks surface.faces first.now second.now }
    ensures { MatchResult result (IsCertificateFor surface.faces first.now second.now)
        (λ fault. (fault ≡ no_memory) ⊎ IsCertifyLimitFault surface.faces first.now second.now fault) }
{
    match CERTIFY_LIMITS.first_over(&surface.faces, first, second) {
        None => Ok(find_certificate(alloc, surface, first, second)?),
        Some(over) => Err(CertifyFault::Over(over)),
    }
}

/// The text that the command `certify` prints of a certificate.
pub fn text_of(alloc: Global, shown: Certificate) -> Result<MemorySink, AllocError>
    ensures { IfOk result (λ text. text.written ≡ certificate_text shown) }
{
    let mut text = MemorySink::new(alloc, usize::MAX);
    match put_text(&mut text, &Text::Certificate(shown)) {
        Ok(()) => Ok(text),
        // No call of the sink was planned to fail.
        Err(_) => Err(AllocError),
    }
}
