// Values of a variable, marked as free actions lead to them.
ghost use Rattle.std.specs.Prelude.{◌≡◌, length};

mod marking;

// Whether each value is marked.
#[derive(Clone, Copy)]
pub struct Marks {
    marked: [bool; 64],
    ghost long: { length marked ≡ 64 },
}
