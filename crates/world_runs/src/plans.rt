//! Plans of attempts.
ghost use Rattle.std.specs.Prelude.{◌<◌, length};
ghost use Rattle.draw_stream.specs.Plans.{IsPlan};

use draw_stream::AttemptPlan;

/// What holds of the attempts of a plan.
pub(crate) fn plan_fits(plan: &AttemptPlan)
    requires { 0 < length plan.now.lists }
    ensures { IsPlan plan.now }
{
    // The contract of `count` says what holds of a plan.
    let _count = plan.count(0);
}
