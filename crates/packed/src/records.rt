// The records of a packed file, each as the number that its bytes make, and the fields of that number.
ghost use Rattle.std.specs.Prelude.{◌≡◌, ◌+◌, ◌*◌, ◌≤◌, length, Option};
ghost use Rattle.packed.specs.Records.{word, field as field_of, layout as layout_of, variable_count, action_count, header_spare, size_of, initial_of, goal_value, goal_of, values_fit, variable_spare, price_of, precondition_count, effect_count, action_spare, fact_variable, fact_value, fact_spare};

// So many bits of a number, above its lowest ones.
fn field(n: u32, low: u32, width: u32) -> u32
    requires { (low ≤ 31) × (width ≤ 16) }
    ensures { result ≡ field_of n low width }
{
    (n >> low) & ((1 << width) - 1)
}

// The number that `WIDTH` bytes make, from a place on, most significant first.
fn number<const WIDTH: usize>(bytes: &[u8], place: usize) -> u32
    requires few { WIDTH ≤ 4 }
    requires inside { place + WIDTH ≤ length bytes.now }
    ensures { result ≡ word bytes.now place WIDTH }
{
    bytes[place..place + WIDTH]
        .iter()
        .fold(0, |so_far, byte| (so_far << 8) | u32::from(*byte))
}

// The first record: the layout, and how many variables and actions follow.
#[derive(Clone, Copy)]
pub struct Header {
    pub bits: u32,
}

impl Header {
    // The first record of bytes that have one.
    pub fn of(bytes: &[u8]) -> Header
        requires { 4 ≤ length bytes.now }
        ensures { result.bits ≡ word bytes.now 0 4 }
    {
        Header {
            bits: number::<4>(bytes, 0),
        }
    }

    pub fn layout(self) -> u8
        ensures { result ≡ layout_of self.bits }
    {
        field(self.bits, 28, 4) as u8
    }

    pub fn variables(self) -> u8
        ensures { result ≡ variable_count self.bits }
    {
        field(self.bits, 22, 6) as u8
    }

    pub fn actions(self) -> u16
        ensures { result ≡ action_count self.bits }
    {
        field(self.bits, 12, 10) as u16
    }

    pub fn spare(self) -> u32
        ensures { result ≡ header_spare self.bits }
    {
        field(self.bits, 0, 12)
    }
}

// A variable: how many values it has, its initial value and its goal.
#[derive(Clone, Copy)]
pub struct Variable {
    pub bits: u32,
}

impl Variable {
    // Where the record of the variable of this number begins.
    pub fn place(number: u8) -> usize
        ensures { result ≡ 4 + 3 * number }
    {
        4 + 3 * usize::from(number)
    }

    // The variable whose three bytes begin at a place.
    pub fn at(bytes: &[u8], place: usize) -> Variable
        requires { place + 3 ≤ length bytes.now }
        ensures { result.bits ≡ word bytes.now place 3 }
    {
        Variable {
            bits: number::<3>(bytes, place),
        }
    }

    pub fn size(self) -> u8
        ensures { result ≡ size_of self.bits }
    {
        field(self.bits, 18, 6) as u8 + 1
    }

    pub fn initial(self) -> u8
        ensures { result ≡ initial_of self.bits }
    {
        field(self.bits, 12, 6) as u8
    }

    // What stands in the goal's field, be there a goal or not.
    pub fn goal_value(self) -> u8
        ensures { result ≡ goal_value self.bits }
    {
        field(self.bits, 5, 6) as u8
    }

    pub fn goal(self) -> Option<u8>
        ensures { result ≡ goal_of self.bits }
    {
        (field(self.bits, 11, 1) == 1).then_some(self.goal_value())
    }

    // Whether the initial value and the goal are values of the variable, and the goal's field is 0 where there is no goal.
    pub fn values_fit(self) -> bool
        ensures { result ≡ values_fit self.bits }
    {
        let goal_fits = self
            .goal()
            .map_or(self.goal_value() == 0, |value| value < self.size());
        self.initial() < self.size() && goal_fits
    }

    pub fn spare(self) -> u32
        ensures { result ≡ variable_spare self.bits }
    {
        field(self.bits, 0, 5)
    }
}

// An action: its price, and how many preconditions and effects follow.
#[derive(Clone, Copy)]
pub struct Action {
    pub bits: u32,
}

impl Action {
    // The action whose first four bytes begin at a place.
    pub fn at(bytes: &[u8], place: usize) -> Action
        requires { place + 4 ≤ length bytes.now }
        ensures { result.bits ≡ word bytes.now place 4 }
    {
        Action {
            bits: number::<4>(bytes, place),
        }
    }

    pub fn price(self) -> u16
        ensures { result ≡ price_of self.bits }
    {
        field(self.bits, 16, 16) as u16
    }

    pub fn preconditions(self) -> u8
        ensures { result ≡ precondition_count self.bits }
    {
        field(self.bits, 10, 6) as u8
    }

    pub fn effects(self) -> u8
        ensures { result ≡ effect_count self.bits }
    {
        field(self.bits, 4, 6) as u8
    }

    pub fn spare(self) -> u32
        ensures { result ≡ action_spare self.bits }
    {
        field(self.bits, 0, 4)
    }
}

// A fact, which is a precondition or an effect: a variable and its value.
#[derive(Clone, Copy)]
pub struct Fact {
    pub bits: u32,
}

impl Fact {
    // The fact whose two bytes begin at a place.
    pub fn at(bytes: &[u8], place: usize) -> Fact
        requires { place + 2 ≤ length bytes.now }
        ensures { result.bits ≡ word bytes.now place 2 }
    {
        Fact {
            bits: number::<2>(bytes, place),
        }
    }

    pub fn variable(self) -> u8
        ensures { result ≡ fact_variable self.bits }
    {
        field(self.bits, 11, 5) as u8
    }

    pub fn value(self) -> u8
        ensures { result ≡ fact_value self.bits }
    {
        field(self.bits, 5, 6) as u8
    }

    pub fn spare(self) -> u32
        ensures { result ≡ fact_spare self.bits }
    {
        field(self.bits, 0, 5)
    }
}
