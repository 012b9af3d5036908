//! The numbers of the classes of many walks.
ghost use Rattle.std.specs.Prelude.{◌≡◌, [], length, IfErr, IfOk, OnOk};
ghost use Rattle.closed_surfaces.specs.SignedSurfaces.{IsSigned};
ghost use Rattle.component_deciding.specs.WordFinders.{mesh_of_finder};
ghost use Rattle.walk_classes.specs.Faults.{IsClassFault};
ghost use Rattle.walk_classes.specs.WalkClasses.{AreClasses};

use crate::fault::ClassFault;
use crate::key::{Key, key_if_walk};
use crate::seen::first_place;
use closed_surfaces::SignedMesh;
use component_deciding::WordFinder;
use std::alloc::Global;
use std::collections::BTreeMap;
use surf_model::Walk;

/// For each walk of a surface the number of its class: the least place of a walk that has the same ends and is homotopic to it.
///
/// Each component in which walks lie is labelled once, unless it is a sphere. Where a list is no walk, the first such place is told.
pub fn classes(alloc: Global, mesh: SignedMesh, walks: &[Walk]) -> Result<Vec<usize>, ClassFault>
    requires { IsSigned mesh }
    ensures classes { IfOk result (λ numbers. AreClasses mesh.faces walks.now numbers.items) }
    ensures fault { IfErr result (IsClassFault mesh.faces walks.now) }
{
    let mut finder = WordFinder::of(alloc, mesh, darts_of(walks))?;
    let numbers = classes_by(alloc, &mut finder, walks);
    // By a call, which is proved once, and not here again.
    drop(finder);
    numbers
}

/// The same of the surface of a finder, which is asked for the word of each walk, and keeps what it has labelled.
pub fn classes_by(
    alloc: Global,
    finder: &mut WordFinder,
    walks: &[Walk],
) -> Result<Vec<usize>, ClassFault>
    ensures same { mesh_of_finder finder.new ≡ mesh_of_finder finder.old }
    ensures classes { IfOk result (λ numbers. AreClasses (mesh_of_finder finder.old) walks.now numbers.items) }
    ensures fault { IfErr result (IsClassFault (mesh_of_finder finder.old) walks.now) }
{
    let mut numbers = vec![in alloc; 0; walks.len()]?;
    let mut seen = BTreeMap::new(alloc);
    let ended = put_numbers(alloc, finder, &mut seen, &mut numbers, walks);
    drop(seen);
    ended?;
    Ok(numbers)
}

/// How many darts the walks have together.
fn darts_of(walks: &[Walk]) -> u64 {
    let mut darts: u64 = 0;
    for walk in walks {
        darts = darts.saturating_add(u64::from(walk.darts()));
    }
    darts
}

/// Puts the number of each walk at its place. No key is seen yet.
fn put_numbers(
    alloc: Global,
    finder: &mut WordFinder,
    seen: &mut BTreeMap<Key, usize>,
    numbers: &mut [usize],
    walks: &[Walk],
) -> Result<(), ClassFault>
    requires none { seen.old.entries ≡ [] }
    requires each { length numbers.old ≡ length walks.now }
    ensures same { mesh_of_finder finder.new ≡ mesh_of_finder finder.old }
    ensures classes { OnOk result (AreClasses (mesh_of_finder finder.old) walks.now numbers.new) }
    ensures fault { IfErr result (IsClassFault (mesh_of_finder finder.old) walks.now) }
{
    for place in 0..walks.len() {
        let Some(key) = key_if_walk(alloc, finder, &walks[place])? else {
            return Err(ClassFault::NoWalk { place });
        };
        // The proof reads what holds of every word.
        let _ = finder.sides();
        numbers[place] = first_place(seen, key, place)?;
    }
    Ok(())
}
