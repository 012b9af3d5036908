//! Darts that wait until a search goes round their nodes.
ghost use Rattle.std.specs.Prelude.{◌≡◌, [], ◌∷◌, ◌++◌, OnOk, IfOk, IfNone, IfSome};
ghost use Rattle.tree_cotree.specs.Waiting.{waiting_darts, IsTakenOut};

use std::alloc::{AllocError, Global};
use std::collections::VecDeque;
use surf_model::DartName;

/// Which of the darts that wait comes next.
#[derive(Clone, Copy, Debug, PartialEq, Eq)]
pub(crate) enum Order {
    /// Patch by patch: of the present patch the one that was found first and, where the patch is large enough, of all the one
    /// that waits longest, which begins a new patch. The ways to the root are nearly as short as they can be.
    Patches,
    /// The one that was found last. The ways to the root are long.
    LastFound,
}

/// How many darts are found in a patch. They lie close together in memory, and are gone round one after another, which is
/// much faster than to go on with one that waits far away.
const PATCH: u32 = 8_192;

/// Darts that wait: those that wait for a patch of their own, and those of the present patch.
#[derive(Drop)]
pub(crate) struct Waiting {
    pub(crate) far: VecDeque<DartName>,
    pub(crate) near: VecDeque<DartName>,
    /// How many darts the present patch has room for.
    room: u32,
}

impl Waiting {
    /// None waits. It takes no memory.
    pub(crate) fn new(alloc: Global) -> Waiting
        ensures far { result.far.items ≡ [] }
        ensures near { result.near.items ≡ [] }
    {
        Waiting {
            far: VecDeque::new(alloc),
            near: VecDeque::new(alloc),
            room: PATCH,
        }
    }

    /// Puts a dart last.
    pub(crate) fn push(&mut self, dart: DartName) -> Result<(), AllocError>
        ensures far { OnOk result (self.new.far.items ≡ self.old.far.items) }
        ensures near { OnOk result (self.new.near.items ≡ self.old.near.items ++ dart ∷ []) }
    {
        self.near.push_back(dart)?;
        self.room = self.room.saturating_sub(1);
        Ok(())
    }

    /// The dart that comes next leaves those that wait.
    pub(crate) fn take(&mut self, order: Order) -> Result<Option<DartName>, AllocError>
        ensures none { IfOk result (λ taken. IfNone taken (waiting_darts self.old.far.items self.old.near.items ≡ [])) }
        ensures some { IfOk result (λ taken. IfSome taken (λ dart. IsTakenOut (waiting_darts self.old.far.items self.old.near.items)
            (waiting_darts self.new.far.items self.new.near.items) dart.0)) }
    {
        match order {
            Order::Patches => self.take_by_patches(),
            Order::LastFound => Ok(self.take_last()),
        }
    }

    /// The dart of the present patch that was found first or, where the patch is large enough, the one that waits longest.
    fn take_by_patches(&mut self) -> Result<Option<DartName>, AllocError>
        ensures none { IfOk result (λ taken. IfNone taken (waiting_darts self.old.far.items self.old.near.items ≡ [])) }
        ensures some { IfOk result (λ taken. IfSome taken (λ dart. IsTakenOut (waiting_darts self.old.far.items self.old.near.items)
            (waiting_darts self.new.far.items self.new.near.items) dart.0)) }
    {
        if self.room > 0 && !self.near.is_empty() {
            return Ok(self.near.pop_front());
        }
        self.far.append(&mut self.near)?;
        self.room = PATCH;
        Ok(self.far.pop_front())
    }

    /// The dart that was found last.
    fn take_last(&mut self) -> Option<DartName>
        ensures none { IfNone result (waiting_darts self.old.far.items self.old.near.items ≡ []) }
        ensures some { IfSome result (λ dart. IsTakenOut (waiting_darts self.old.far.items self.old.near.items)
            (waiting_darts self.new.far.items self.new.near.items) dart.0) }
    {
        match self.near.pop_back() {
            Some(dart) => Some(dart),
            None => self.far.pop_back(),
        }
    }
}
