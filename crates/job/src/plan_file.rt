// The plan in a file.
ghost use Rattle.job.specs.Jobs.{plan_read};
ghost use Rattle.job.specs.Outcomes.{ComesTo, actions_in};

use crate::failure::Failure;
use std::alloc::Global;
use tasks::Cause;

// Two bytes an action, most significant first.
pub fn read_plan(heap: Global, bytes: &[u8]) -> Result<Vec<u16>, Failure>
    ensures { ComesTo actions_in result (plan_read bytes.now) }
{
    let (actions, rest) = bytes.as_chunks::<2>();
    if !rest.is_empty() || bytes.len() > 32768 {
        return Err(Cause::PlanFile.at(0).into());
    }
    let mut plan = Vec::new(heap);
    for action in actions {
        plan.push(u16::from_be_bytes(*action))?;
    }
    Ok(plan)
}
