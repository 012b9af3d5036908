//! The walks of a file.
ghost use Rattle.std.specs.Prelude.{◌≡◌, ◌<◌, ◌≤◌, List, [], ◌∷◌, ◌++◌, length, slice_get, Some, OnOk, OnErr, IfOk, All};
ghost use Rattle.walk_files.specs.declared.limits.TheConstants.{MOST_LINES};

use std::alloc::{AllocError, Global};
use std::marker::Model;
use surf_model::Walk;

/// Walks, in the order in which they were written, and the version of the text that they are from. Any vertex numbers may
/// stand in them.
#[derive(Debug, Drop)]
pub struct WalkList {
    version: u32,
    walks: Vec<Walk>,
}

impl Model for WalkList {
    ghost use Rattle.std.specs.Prelude.{◌<◌, ◌≤◌, length, All};
    ghost use Rattle.walk_files.specs.WalkLists.{WalkText};
    ghost use Rattle.walk_files.specs.declared.limits.TheConstants.{MOST_LINES};

    ghost Value = { WalkText };

    ghost view = { λ a. record { version = a.version; walks = a.walks.items } };

    ghost invariant = { λ a. (length a.walks.items ≤ MOST_LINES) × All (λ walk. 0 < length walk) a.walks.items };
}

impl WalkList {
    ghost use Rattle.walk_files.specs.WalkLists.{WalkText};

    /// No walks, of a text of that version. It takes no memory.
    pub(crate) fn new(alloc: Global, version: u32) -> WalkList
        ensures { result ≡ record { version = version; walks = [] } }
    {
        WalkList {
            version,
            walks: Vec::new(alloc),
        }
    }

    /// The list of these two walks, as of a text of version 1. Where memory runs out they are gone.
    pub fn pair(alloc: Global, first: Walk, second: Walk) -> Result<WalkList, AllocError>
        ensures { IfOk result (λ list. list ≡ record { version = 1; walks = first ∷ second ∷ [] }) }
    {
        let mut list = WalkList {
            version: 1,
            walks: Vec::with_capacity(alloc, 2)?,
        };
        list.push(first)?;
        list.push(second)?;
        Ok(list)
    }

    /// Puts a walk last.
    pub(crate) fn push(&mut self, walk: Walk) -> Result<(), AllocError>
        requires { length self.old.walks < MOST_LINES }
        ensures ok { OnOk result (self.new ≡ record self.old { walks = self.old.walks ++ walk ∷ [] }) }
        ensures err { OnErr result (self.new ≡ self.old) }
    {
        // The proof reads what holds of every walk.
        let _ = walk.darts();
        self.walks.push(walk)?;
        Ok(())
    }

    /// The version of the text: in version 1 each line is a walk, in version 2 walks come in pairs, and groups may stand in
    /// them.
    pub fn version(&self) -> u32
        ensures { result ≡ self.now.version }
    {
        self.version
    }

    /// The number of walks.
    pub fn len(&self) -> u64
        ensures count { result ≡ length self.now.walks }
        // What holds of every list.
        ensures few { length self.now.walks ≤ MOST_LINES }
        ensures filled { All (λ walk. 0 < length walk) self.now.walks }
    {
        self.walks.len() as u64
    }

    /// Walk `k`, counted from 0.
    pub fn at(&self, k: u64) -> &Walk
        requires { k < length self.now.walks }
        ensures { slice_get self.now.walks k ≡ Some result.now }
    {
        &self.walks[k as usize]
    }
}
