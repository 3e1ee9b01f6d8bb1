// Why there is no report.
ghost use Rattle.std.specs.Prelude.{◌≡◌};
ghost use Rattle.job.specs.declared.failure.Failure.TheVariants.{Refused as RefusedBy, NoMemory as Memory};

use std::alloc::AllocFailed;
use tasks::Refusal;

#[derive(Debug, Drop)]
pub enum Failure {
    Refused(Refusal),
    NoMemory,
}

// By hand, both: contracts speak of what they give, and a derived one has no contract.
impl From<Refusal> for Failure {
    ghost from_gives = { λ e r. r ≡ RefusedBy e };

    fn from(refusal: Refusal) -> Failure {
        Failure::Refused(refusal)
    }
}

impl<T: Drop> From<AllocFailed<T>> for Failure {
    ghost from_gives = { λ _ r. r ≡ Memory };

    fn from(_e: AllocFailed<T>) -> Failure {
        Failure::NoMemory
    }
}
