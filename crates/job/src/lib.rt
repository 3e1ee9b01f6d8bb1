// What the program does with its two files, but for reading and printing.
#![tactic(auto)]

ghost use Rattle.packed.specs.Decoding.{decoded};
ghost use Rattle.packed.specs.Files.{contents};
ghost use Rattle.job.specs.Jobs.{job as due, plan_priced, plan_read};
ghost use Rattle.job.specs.JobLaw.{JobDecides};
ghost use Rattle.job.specs.Outcomes.{ComesTo, reported};

use packed::File;
use std::alloc::Global;
use tasks::{Charge, check_total};

pub mod failure;
mod plan_file;
pub mod report;

pub use failure::Failure;
use plan_file::read_plan;
pub use report::Report;

// Reads the plan and checks it on the task of a file.
fn price_plan(heap: Global, file: &File, plan: &[u8]) -> Result<Report, Failure>
    ensures { ComesTo reported result (plan_priced (decoded (contents file.now)) (plan_read plan.now)) }
{
    let plan = read_plan(heap, plan)?;
    let total = check_total::<File, Charge>(file, &plan)?;
    Ok(Report { plan, total })
}

// Opens the task, reads the plan and checks it on the task.
pub fn run(heap: Global, task: Vec<u8>, plan: &[u8]) -> Result<Report, Failure>
    ensures result { ComesTo reported result (due task.items plan.now) }
    ensures law { JobDecides task.items plan.now (due task.items plan.now) }
{
    let file = File::open(task)?;
    price_plan(heap, &file, plan)
}
