//! The acts of one step.
ghost use Rattle.std.specs.Prelude.{◌≡◌, ◌+◌, ◌<◌, ◌≤◌, ℕ, [], length, get_or};
ghost use Rattle.checker.specs.Code.Crowd.{act_at};
ghost use Rattle.checker.specs.Code.Blocks.{block_steps};

use crate::stretch::BLOCK;
use model::Act;
use std::marker::Model;

/// The acts of all agents in one step.
#[derive(Drop)]
pub(crate) struct ActRow {
    acts: Vec<Act>,
}

impl Model for ActRow {
    ghost use Rattle.std.specs.Prelude.{List};
    ghost use Rattle.model.specs.declared.act.Act.{Act as model_act};

    ghost Value = { List model_act };

    ghost view = { λ r. r.acts.items };
}

impl ActRow {
    pub(crate) fn new(acts: Vec<Act>) -> ActRow
        ensures { result ≡ acts.items }
    {
        ActRow { acts }
    }

    pub(crate) fn acts(&self) -> &[Act]
        ensures { result.now ≡ self.now }
    {
        self.acts.as_slice()
    }

    /// Puts the acts that the stretches have for the step, one after another, from the place on.
    pub(crate) fn put(&mut self, first: usize, stretches: &[[Act; BLOCK]], step: usize)
        requires step { step < block_steps }
        requires stretches { (k : ℕ) → k < length stretches.now → length (get_or stretches.now k [])
            ≡ block_steps }
        requires room { first + length stretches.now ≤ length self.old }
        ensures count { length self.new ≡ length self.old }
        ensures before { (k : ℕ) → k < first → act_at self.new k ≡ act_at self.old k }
        ensures own { (k : ℕ) → k < length stretches.now
            → act_at self.new (first + k) ≡ act_at (get_or stretches.now k []) step }
    {
        // Where the acts stand is asked once, and not again after each of them.
        let acts = self.acts.as_mut_slice();
        for member in 0..stretches.len() {
            acts[first + member] = stretches[member][step];
        }
    }
}
