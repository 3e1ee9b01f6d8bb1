// Runs the case files and says how many of their cases hold.
#![tactic(auto)]

mod answering;
mod describing;

use answering::Answers;
use case_files::run_file;

fn main(rt: HostRuntime) -> anyhow::Result<()> {
    run_file::<Answers, _>(&rt, "files.txt")?;
    run_file::<Answers, _>(&rt, "plans.txt")?;
    run_file::<Answers, _>(&rt, "floors.txt")
}
