//! On what terms a tape is taken, with the plan at hand.
ghost use Rattle.std.specs.Prelude.{◌≡◌};
ghost use Rattle.agent_commands.specs.Code.Plans.{IsTermsFor, claim_of};

use plan_text::Plan;
use tape_claim::TapeClaim;

/// What a tape has to be, with the plan that is to be kept beside it.
#[derive(Drop)]
pub(crate) enum Terms {
    Any,
    New(Plan),
    Kept(Plan),
}

impl Terms {
    /// What is claimed of a tape, with the plan at hand.
    pub(crate) fn new(claim: TapeClaim, plan: Plan) -> Terms
        ensures { IsTermsFor claim plan result }
    {
        match claim {
            TapeClaim::Any => Terms::Any,
            TapeClaim::New => Terms::New(plan),
            TapeClaim::Kept => Terms::Kept(plan),
        }
    }

    pub(crate) fn claim(&self) -> TapeClaim
        ensures { result ≡ claim_of self.now }
    {
        match self {
            Terms::Any => TapeClaim::Any,
            Terms::New(_) => TapeClaim::New,
            Terms::Kept(_) => TapeClaim::Kept,
        }
    }
}
