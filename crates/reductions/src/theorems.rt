// The theorems about steps, each named by the contract of a function that does nothing else.
ghost use Rattle.tasks.specs.Task.{Priced as Meaning};
ghost use Rattle.reductions.specs.StepLaws.{StepsKeepLawful, StepsKeepSolvable, ConnectedDecides, UndoingSound, ExtendingSound, StandingKeeps};
ghost use Rattle.reductions.specs.Histories.{EveryHistoryPreserves};

use tasks::Measure;

// An accepted step keeps the task lawful.
pub fn steps_keep_lawful()
    ensures { StepsKeepLawful }
{}

// A task is solvable exactly when the task after an accepted step is.
pub fn steps_keep_solvable()
    ensures { StepsKeepSolvable }
{}

// A variable passes the test of an abstract step exactly when free actions lead from each of its live values to every other.
pub fn connected_decides()
    ensures { ConnectedDecides }
{}

// Steps that stand keep the task lawful, and it is solvable exactly when the reduced one is.
pub fn standing_keeps()
    ensures { StandingKeeps }
{}

// A plan of the task after a step, undone, is a plan of the task before, with the total and the length that are due.
pub fn undoing_sound<M: Measure>()
    ensures { UndoingSound M.Measure.scale }
{}

// The same over every list of steps that stand.
pub fn extending_sound<M: Measure>()
    ensures { ExtendingSound M.Measure.scale }
{}

// After every list of calls from the making of a pile on, all that is promised of it holds.
pub fn every_history_preserves<M: Measure>()
    ensures { (b : Meaning) → EveryHistoryPreserves M.Measure.scale b }
{}
