//! Which agents take the same step, and which the opposite one.
ghost use Rattle.std.specs.Prelude.{◌≡◌, ◌<◌, ◌^◌, length, IfOk};
ghost use Rattle.checker.specs.Code.Links.{AreLinked};

use crate::places::Step;
use std::alloc::{AllocError, Global};
use std::collections::HashMap;

/// The next agents after one.
#[derive(Clone, Copy)]
pub(crate) struct Link {
    /// That takes the opposite step.
    pub(crate) opposite: Option<u32>,
    /// That takes the same step.
    pub(crate) same: Option<u32>,
}

/// The steps of all agents, and the links of each, by which pairs are found without trying them
/// all.
#[derive(Drop)]
pub(crate) struct Links<'a> {
    pub(crate) steps: &'a [Step],
    pub(crate) links: Vec<Link>,
}

impl<'a> Links<'a> {
    pub(crate) fn of(alloc: Global, steps: &'a [Step]) -> Result<Links<'a>, AllocError>
        requires { length steps.now < 2 ^ 32 }
        ensures steps { IfOk result (λ links. links.steps.now ≡ steps.now) }
        ensures linked { IfOk result (λ links. AreLinked steps.now 0 links.links.items) }
    {
        let none = Link {
            opposite: None,
            same: None,
        };
        let mut links = vec![in alloc; none; steps.len()]?;
        let mut agents = HashMap::with_capacity(alloc, steps.len())?;
        let mut agent = steps.len();
        while agent > 0 {
            agent -= 1;
            let step = steps[agent];
            let opposite = agents.get(&step.reversed()).copied();
            let same = agents.insert(step, agent as u32)?;
            links[agent] = Link { opposite, same };
        }
        Ok(Links { steps, links })
    }
}
