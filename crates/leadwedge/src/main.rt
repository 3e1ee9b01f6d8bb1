// Reads task.bin and top.plan in its folder, and prints what the job makes of them.
#![tactic(auto)]

use anyhow::bail;
use job::Failure;
use std::fs;
use std::io::ErrorKind;

// What a file holds; a missing file counts as empty.
fn read_or_empty(rt: &HostRuntime, path: &str) -> anyhow::Result<Vec<u8>> {
    match fs::read(rt, path) {
        Ok(bytes) => Ok(bytes),
        Err(e) if e.kind() == ErrorKind::NotFound => Ok(Vec::new(rt.alloc())),
        Err(e) => Err(e.into()),
    }
}

fn main(rt: HostRuntime) -> anyhow::Result<()> {
    let task = read_or_empty(&rt, "task.bin")?;
    let plan = read_or_empty(&rt, "top.plan")?;
    match job::run(rt.alloc(), task, &plan) {
        Ok(report) => println!(rt; "{report}")?,
        Err(Failure::Refused(refusal)) => println!(rt; "{refusal}")?,
        Err(Failure::NoMemory) => bail!("out of memory"),
    }
    Ok(())
}
