// Runs the case file of detours and says how many of its cases hold.
#![tactic(auto)]

mod answering;

use answering::Detours;
use case_files::run_file;

fn main(rt: HostRuntime) -> anyhow::Result<()> {
    run_file::<Detours, _>(&rt, "detours.txt")
}
