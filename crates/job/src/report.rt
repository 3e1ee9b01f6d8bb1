// What the program prints of a plan that works.
ghost use Rattle.std.specs.Prelude.{Some};
ghost use Rattle.job.specs.Texts.{report_text};

use std::fmt;

// A plan of the task, and what it costs in charge.
#[derive(Drop)]
pub struct Report {
    pub plan: Vec<u16>,
    pub total: u32,
}

impl fmt::Display for Report {
    ghost output = { λ r. Some (report_text r.plan.items r.total) };

    #[tactic(auto, using(crate::proofs::Lines::written_more, crate::proofs::Lines::all_written))]
    fn fmt<W: fmt::Write>(&self, f: &mut fmt::Formatter<W>) -> fmt::Result {
        write!(f, "steps 0\nplan {} total {}", self.plan.len(), self.total)?;
        for action in &self.plan {
            write!(f, "\n{action}")?;
        }
        Ok(())
    }
}
