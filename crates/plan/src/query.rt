// A plan that has been checked, and the volume that it was checked over.
ghost use Rattle.std.specs.Prelude.{◌≡◌, IfOk, IfErr};
ghost use Rattle.plan.specs.Answers.{said_refusal};
ghost use Rattle.plan.specs.Check.{Accepted, verdict};
ghost use Rattle.plan.specs.Check as check;

use super::answers::{Refusal, Sizes};
use super::checking::check;
use volume::Volume;

// A volume, a plan that is accepted over it, and the plan's sizes.
#[derive(Clone, Copy)]
pub struct Query<'a> {
    pub volume: Volume<'a>,
    pub plan: &'a [u32],
    pub sizes: Sizes,
    ghost accepted: { Accepted volume.bytes.now plan.now },
    ghost sizes_are: { sizes ≡ check.sizes plan.now },
}

impl<'a> Query<'a> {
    // A plan over a volume, or why they are refused.
    pub fn open(volume: &'a [u8], plan: &'a [u32]) -> Result<Query<'a>, Refusal>
        ensures volume { IfOk result (λ query. query.volume.bytes.now ≡ volume.now) }
        ensures plan { IfOk result (λ query. query.plan.now ≡ plan.now) }
        ensures err { IfErr result (λ why. said_refusal why ≡ verdict volume.now plan.now) }
    {
        let sizes = check(volume, plan)?;
        let volume = Volume { bytes: volume };
        Ok(Query {
            volume,
            plan,
            sizes,
        })
    }
}
