// The edges of packed files and of the program's two files: tests alone.
#![tactic(auto)]

#[cfg(test)]
mod tests;
