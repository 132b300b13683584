//! The indentation of a line.
ghost use Rattle.std.specs.Prelude.{◌≡◌, ℕ, suc, ◌++◌, ◌<◌, OnOk};
ghost use Rattle.c_language.specs.Layout.{indent};

use c_tree::Text;
use std::alloc::{AllocError, Global};
use std::marker::Model;

/// The indentation at a level, four spaces for each. Contracts see the level.
///
/// It holds the spaces themselves, so that no count of levels can overflow.
#[derive(Debug, Drop)]
pub(crate) struct Margin {
    spaces: Vec<u8>,
}

impl Model for Margin {
    ghost use Rattle.std.specs.Prelude.{◌≡◌, ℕ};
    ghost use Rattle.c_language.specs.Layout.{indent};
    ghost use Rattle.c_print.specs.Levels.{level_of};

    ghost Value = { ℕ };

    ghost view = { λ m. level_of m.spaces.items };

    ghost invariant = { λ m. m.spaces.items ≡ indent (level_of m.spaces.items) };
}

impl Margin {
    /// No indentation.
    pub(crate) fn new(alloc: Global) -> Margin
        ensures { result ≡ 0 }
    {
        Margin {
            spaces: Vec::new(alloc),
        }
    }

    /// Goes one level deeper.
    #[tactic(auto, using(crate::proofs::Indentation::levels_of))]
    pub(crate) fn deepen(&mut self) -> Result<(), AllocError>
        ensures { OnOk result (self.new ≡ suc self.old) }
    {
        self.spaces.extend_from_slice(b"    ")
    }

    /// Goes back by one level.
    #[tactic(auto, using(crate::proofs::Indentation::levels_of))]
    pub(crate) fn shorten(&mut self)
        requires { 0 < self.old }
        ensures { self.old ≡ suc self.new }
    {
        let kept = self.spaces.len() - 4;
        self.spaces.truncate(kept);
    }

    /// Appends the spaces.
    pub(crate) fn indent(&self, out: &mut Text) -> Result<(), AllocError>
        ensures { OnOk result (out.new ≡ out.old ++ indent self.now) }
    {
        out.append(self.spaces.as_slice())
    }
}
