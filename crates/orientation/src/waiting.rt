//! The faces that wait until a search goes across their edges.
ghost use Rattle.std.specs.Prelude.{◌≡◌, ◌⊎◌, [], ◌∷◌, ◌++◌, OnOk, OnErr, IfSome, IfNone};

use std::alloc::{AllocError, Global};
use std::collections::VecDeque;
use std::marker::Model;
use surf_model::FaceName;

/// Which of the faces that wait comes next.
#[derive(Clone, Copy, Debug)]
pub(crate) enum Order {
    /// The one that was found first: the ways from the faces to the first ones of their trees are short.
    FirstFound,
    /// The one that was found last: neighbours in the mesh come one after another, which is much faster.
    LastFound,
}

/// Faces that wait, in the order in which they were found.
#[derive(Drop)]
pub(crate) struct Waiting {
    faces: VecDeque<FaceName>,
    order: Order,
}

impl Model for Waiting {
    ghost use Rattle.std.specs.Prelude.{List};
    ghost use Rattle.surf_model.specs.declared.names.FaceName.{FaceName};

    ghost Value = { List FaceName };

    ghost view = { λ waiting. waiting.faces.items };
}

impl Waiting {
    /// None waits. It takes no memory.
    pub(crate) fn new(alloc: Global, order: Order) -> Waiting
        ensures { result ≡ [] }
    {
        Waiting {
            faces: VecDeque::new(alloc),
            order,
        }
    }

    /// Puts a face last.
    pub(crate) fn push(&mut self, face: FaceName) -> Result<(), AllocError>
        ensures ok { OnOk result (self.new ≡ self.old ++ face ∷ []) }
        ensures err { OnErr result (self.new ≡ self.old) }
    {
        self.faces.push_back(face)?;
        Ok(())
    }

    /// The face that comes next leaves those that wait.
    pub(crate) fn take(&mut self) -> Option<FaceName>
        ensures none { IfNone result (self.old ≡ []) }
        ensures unchanged { IfNone result (self.new ≡ []) }
        ensures some { IfSome result (λ face. (self.old ≡ face ∷ self.new) ⊎ (self.old ≡ self.new ++ face ∷ [])) }
    {
        match self.order {
            Order::FirstFound => self.faces.pop_front(),
            Order::LastFound => self.faces.pop_back(),
        }
    }
}
