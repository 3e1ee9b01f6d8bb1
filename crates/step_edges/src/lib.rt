// The refusals of steps and the undoing of each kind: tests alone.
#![tactic(auto)]

#[cfg(test)]
mod tests;
