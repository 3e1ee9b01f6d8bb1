ghost use Rattle.std.specs.Prelude.{◌-◌, ◌<◌, ◌≤◌, ◌&&◌, ltb, if◌then◌else◌, Some, None, ◌==◌, nat_lt, refl};
ghost use Rattle.std.proofs.Common.{arith};
ghost use Rattle.std.proofs.lemmas.Bool.{both_ways, and_parts, and_from, cond-false, cond_both, ltb-true, ltb-false, lt-ltb, le-ltb};
ghost use Rattle.tasks.specs.Optional.{chosen};
ghost use Rattle.tasks.specs.SwitchesTaskLemmas.{named};

use super::{Cause, Charge, Depth, Measure, Priced, Refusal, Task, check_total, total};
use std::alloc::{AllocError, Global};
use std::test::Fail;

// Each variable is a switch, off and wanted on. Action a turns switch a on, if it is off, and costs a less than 65,535.
#[derive(Drop)]
struct Switches {
    count: u8,
    ghost few: { count ≤ 32 },
}

impl Task for Switches {
    ghost meant = { λ s. record {
      vars = s.count;
      acts = s.count;
      size = λ v. (if ltb v s.count then 2 else 0);
      var_live = λ v. nat_lt v s.count;
      val_live = λ v x. nat_lt v s.count && nat_lt x 2;
      act_live = λ a. nat_lt a s.count;
      pre = λ a v. (if ltb a s.count && a == v then Some 0 else None);
      eff = λ a v. (if ltb a s.count && a == v then Some 1 else None);
      init = λ v. 0;
      goal = λ v. (if ltb v s.count then Some 1 else None);
    } };

    ghost lawful = { λ t.
        let n = t.count in
        record {
          few_vars = t.few;
          few_acts = omega (arith, t.few);
          size_some = λ v within. cond_both (nat_lt v n) 2 0 (λ k. 1 ≤ k) (λ e. omega arith) (λ e. absurd (omega (arith, ltb-false v n e)));
          size_most = λ v. cond_both (nat_lt v n) 2 0 (λ k. k ≤ 64) (λ e. omega arith) (λ e. omega arith);
          size_none = λ v past. cond-false (nat_lt v n) 2 0 (le-ltb v n past);
          var_in = λ v h. ltb-true v n h;
          act_in = λ a h. ltb-true a n h;
          val_in = λ v x h. let p = and_parts (nat_lt v n) (nat_lt x 2) h in cond_both (nat_lt v n) 2 0 (λ k. x < k) (λ e. ltb-true x 2 p.1) (λ e. absurd (both_ways (nat_lt v n) e p.0));
          val_var = λ v x h. (and_parts (nat_lt v n) (nat_lt x 2) h).0;
          pre_act = λ a v x h. (named n a v 0 x (omega arith) h).0;
          pre_val = λ a v x h. (named n a v 0 x (omega arith) h).1;
          eff_act = λ a v x h. (named n a v 1 x (omega arith) h).0;
          eff_val = λ a v x h. (named n a v 1 x (omega arith) h).1;
          goal_val = λ v x h. let w = chosen (nat_lt v n) 1 x h in and_from _ _ w.0 (lt-ltb x 2 (omega (arith, w.1)));
          init_val = λ v h. and_from _ _ h refl;
          init_none = λ v h. refl;
        } };

    fn variables(&self) -> u8 {
        self.count
    }

    fn actions(&self) -> u16 {
        u16::from(self.count)
    }

    fn size(&self, variable: u8) -> u8 {
        if variable < self.count { 2 } else { 0 }
    }

    fn variable_live(&self, variable: u8) -> bool {
        variable < self.count
    }

    fn value_live(&self, variable: u8, value: u8) -> bool {
        variable < self.count && value < 2
    }

    fn action_live(&self, action: u16) -> bool {
        action < u16::from(self.count)
    }

    fn precondition(&self, action: u16, variable: u8) -> Option<u8> {
        if action < u16::from(self.count) && action == u16::from(variable) {
            Some(0)
        } else {
            None
        }
    }

    fn effect(&self, action: u16, variable: u8) -> Option<u8> {
        if action < u16::from(self.count) && action == u16::from(variable) {
            Some(1)
        } else {
            None
        }
    }

    fn initial(&self, variable: u8) -> u8 {
        0
    }

    fn goal(&self, variable: u8) -> Option<u8> {
        if variable < self.count { Some(1) } else { None }
    }
}

impl Priced for Switches {
    ghost tariff = { λ s a. 65535 - a };

    fn price(&self, action: u16) -> u16 {
        if action < u16::from(self.count) {
            65_535 - action
        } else {
            0
        }
    }
}

// What comes of a list of actions: its charge, or why it is no plan.
fn charged(switches: &Switches, list: &[u16]) -> Result<u32, Refusal> {
    check_total::<Switches, Charge>(switches, list)
}

fn refused(cause: Cause, place: usize) -> Result<u32, Refusal> {
    Err(Refusal { cause, place })
}

#[test]
fn nothing_is_a_plan_where_nothing_is_wanted(rt: HostRuntime) {
    let none = Switches { count: 0 };
    assert_eq!(rt;
        (
            charged(&none, &[]),
            check_total::<Switches, Depth>(&none, &[]),
            charged(&none, &[0]),
        ),
        (Ok(0), Ok(0), refused(Cause::CannotRun, 0))
    );
}

#[test]
fn an_action_that_cannot_run_is_refused_at_its_place(rt: HostRuntime) {
    let three = Switches { count: 3 };
    assert_eq!(rt;
        (
            charged(&three, &[0, 1, 3, 2]),
            charged(&three, &[2, 65_535]),
            charged(&three, &[0, 1, 0, 2]),
        ),
        (
            refused(Cause::CannotRun, 2),
            refused(Cause::CannotRun, 1),
            refused(Cause::CannotRun, 2),
        )
    );
}

// The actions 0, 1, .. below n.
fn below(heap: Global, n: u16) -> Result<Vec<u16>, AllocError> {
    let mut all = Vec::new(heap);
    for action in 0..n {
        all.push(action)?;
    }
    Ok(all)
}

#[test]
fn the_highest_goal_counts(rt: HostRuntime) -> Result<(), Fail> {
    let most = Switches { count: 32 };
    assert_eq!(rt;
        (
            charged(&most, &below(rt.alloc(), 31)?),
            charged(&most, &below(rt.alloc(), 32)?),
        ),
        (refused(Cause::GoalMissed, 31), Ok(2_096_624))
    );
    Ok(())
}

#[test]
fn totals_stop_at_the_largest_or_are_the_greatest_price(rt: HostRuntime) {
    assert_eq!(rt;
        (
            Charge::join(4_294_967_295, 1),
            Charge::join(4_294_900_000, 65_535),
            Charge::join(4_294_901_761, 65_535),
        ),
        (4_294_967_295, 4_294_965_535, 4_294_967_295)
    );
    let three = Switches { count: 3 };
    assert_eq!(rt;
        (
            total::<Switches, Depth>(&three, &[]),
            total::<Switches, Depth>(&three, &[2, 1, 2, 3]),
        ),
        (0, 65_534)
    );
}

#[test]
fn a_refusal_is_one_line(rt: HostRuntime) -> Result<(), Fail> {
    let plan = Refusal {
        cause: Cause::CannotRun,
        place: 7,
    };
    let program = Refusal {
        cause: Cause::PlanFile,
        place: 0,
    };
    assert_eq!(rt;
        format!(in rt.alloc(); "{plan}\n{program}")?.as_str(),
        "refused 31 plan 7\nrefused 36 program 0"
    );
    Ok(())
}
