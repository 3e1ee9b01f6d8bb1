// How totals are measured.
ghost use Rattle.std.specs.Prelude.{◌≡◌, ◌+◌, min};
ghost use Rattle.tasks.specs.Measures.{CostAlgebra, CostLaws, charge, depth};
ghost use Rattle.std.proofs.Common.{inl, inr, ⊎_elim, arith, leb-true, le-leb, rules};
ghost use Rattle.std.proofs.lemmas.Bool.{cases_lt};
ghost use Rattle.tasks.specs.Saturating.{saturating_assoc};

// A kind of total, the total for nothing, the weight of a price, a joining and a comparison.
pub trait Measure {
    type Total: Copy;

    ghost scale: { CostAlgebra Self.Total };

    // The total of no action.
    fn nothing() -> Self::Total
        ensures { result ≡ scale.nothing };

    // The total of one action.
    fn weight(price: u16) -> Self::Total
        ensures { result ≡ scale.weight price };

    fn join(x: Self::Total, y: Self::Total) -> Self::Total
        ensures { result ≡ scale.join x y };

    fn at_most(x: Self::Total, y: Self::Total) -> bool
        ensures { result ≡ scale.at_most x y };

    ghost lawful: { CostLaws scale };
}

// The prices add up, and stop at the largest total.
pub struct Charge;

impl Measure for Charge {
    type Total = u32;

    ghost scale = { charge };

    ghost lawful = { record {
      assoc = saturating_assoc 4294967295;
      comm = λ x y. omega arith;
      neutral = λ x. omega arith;
      either = λ x y. ⊎_elim (λ h. inl (le-leb x y (omega arith))) (λ h. inr (le-leb y x h)) (cases_lt x y);
      trans = λ x y z h k. le-leb x z (omega (arith, leb-true x y h, leb-true y z k));
      antisym = λ x y h k. omega (arith, leb-true x y h, leb-true y x k);
      least = λ x. le-leb 0 x (omega arith);
      retains = λ x y z h. le-leb _ _ (omega (arith, leb-true x y h));
    } };

    fn nothing() -> u32 {
        0
    }

    fn weight(price: u16) -> u32 {
        u32::from(price)
    }

    fn join(x: u32, y: u32) -> u32
        ensures defined { result ≡ charge.join x y }
        ensures plain { result ≡ min (x + y) 4294967295 }
    {
        x.saturating_add(y)
    }

    fn at_most(x: u32, y: u32) -> bool {
        x <= y
    }
}

// The greatest price counts.
pub struct Depth;

impl Measure for Depth {
    type Total = u16;

    ghost scale = { depth };

    ghost lawful = { Prim.search rules };

    fn nothing() -> u16 {
        0
    }

    fn weight(price: u16) -> u16 {
        price
    }

    fn join(x: u16, y: u16) -> u16 {
        x.max(y)
    }

    fn at_most(x: u16, y: u16) -> bool {
        x <= y
    }
}
