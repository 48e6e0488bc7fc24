//! The acts of one agent in a block.
ghost use Rattle.std.specs.Prelude.{◌≡◌, ◌<◌, ◌^◌, length};
ghost use Rattle.checker.specs.Moving.{block_steps, IsStretch};

use model::Act;
use std::marker::Model;

/// So many steps are walked at once: a block.
pub const BLOCK: usize = 64;

/// The acts of one agent in a block, with waits behind its last.
#[derive(Debug, Drop)]
pub struct Stretch {
    acts: [Act; BLOCK],
}

impl Model for Stretch {
    ghost use Rattle.std.specs.Prelude.{List, ◌≡◌, length};
    ghost use Rattle.model.specs.declared.act.Act.{Act as model_act};
    ghost use Rattle.checker.specs.Moving.{block_steps};

    ghost Value = { List model_act };

    ghost view = { λ s. s.acts };

    ghost invariant = { λ s. length s.acts ≡ block_steps };
}

impl Stretch {
    /// Those of the acts that a block from this step on has.
    pub fn of(acts: &[Act], step: usize) -> Stretch
        requires { step < 2 ^ 32 }
        ensures { IsStretch acts.now step result }
    {
        let mut stretch = [Act::Wait; BLOCK];
        if step + BLOCK <= acts.len() {
            // Most blocks are whole, and a copy whose length is known takes no call.
            stretch.copy_from_slice(&acts[step..step + BLOCK]);
            return Stretch { acts: stretch };
        }
        let begin = step.min(acts.len());
        stretch[..acts.len() - begin].copy_from_slice(&acts[begin..]);
        Stretch { acts: stretch }
    }

    pub fn acts(&self) -> &[Act]
        ensures value { result.now ≡ self.now }
        ensures count { length result.now ≡ block_steps }
    {
        &self.acts
    }

    /// The acts by themselves.
    pub(crate) fn into_acts(self) -> [Act; BLOCK]
        ensures { result ≡ self }
    {
        self.acts
    }
}
