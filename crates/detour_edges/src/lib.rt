// The edges of detours: tests alone.
#![tactic(auto)]

#[cfg(test)]
mod tests;
