// What a task answers, as the case files write it.
use std::alloc::AllocError;
use std::fmt::{self, Display, Write};
use tasks::{Priced, Task};

// A list that is written behind a text, item by item: commas between the items, and `-` for none. Texts made for each list and
// line, and then joined, took half as long again.
#[derive(Drop)]
struct List<'a> {
    out: &'a mut String,
    none: bool,
}

impl List<'_> {
    fn new(out: &mut String) -> List<'_> {
        List { out, none: true }
    }

    fn push<T: Display>(&mut self, item: &T) -> Result<(), AllocError> {
        if !self.none {
            self.out.push(',')?;
        }
        self.none = false;
        write!(self.out, "{item}")
    }

    fn end(self) -> Result<(), AllocError> {
        if self.none {
            self.out.push('-')
        } else {
            Ok(())
        }
    }
}

// A value that is given to a variable: `3=0`.
#[derive(Drop)]
struct Fact {
    variable: u8,
    value: u8,
}

impl Display for Fact {
    fn fmt<W: Write>(&self, f: &mut fmt::Formatter<W>) -> fmt::Result {
        write!(f, "{}={}", self.variable, self.value)
    }
}

// The values that are given to the variables below a number.
fn facts<F: Fn(u8) -> Option<u8>>(
    out: &mut String,
    variables: u8,
    given: F,
) -> Result<(), AllocError>
    requires { F.IsAlwaysCallable given }
{
    let mut list = List::new(out);
    for variable in 0..variables {
        if let Some(value) = given(variable) {
            list.push(&Fact { variable, value })?;
        }
    }
    list.end()
}

// The live values of a variable.
fn values<T: Task>(out: &mut String, task: &T, variable: u8) -> Result<(), AllocError> {
    let mut list = List::new(out);
    for value in 0..task.size(variable) {
        if task.value_live(variable, value) {
            list.push(&value)?;
        }
    }
    list.end()
}

// The line of a variable.
fn variable<T: Task>(out: &mut String, task: &T, v: u8) -> Result<(), AllocError> {
    if !task.variable_live(v) {
        return writeln!(out, "var {v} retired");
    }
    let size = task.size(v);
    let start = task.initial(v);
    write!(out, "var {v} size {size} start {start} goal ")?;
    match task.goal(v) {
        Some(value) => write!(out, "{value}")?,
        None => out.push('-')?,
    }
    out.push_str(" live ")?;
    values(out, task, v)?;
    out.push('\n')
}

// The line of an action.
fn action<T: Priced>(out: &mut String, task: &T, a: u16) -> Result<(), AllocError> {
    if !task.action_live(a) {
        return writeln!(out, "act {a} retired");
    }
    let price = task.price(a);
    write!(out, "act {a} price {price} pre ")?;
    facts(out, task.variables(), |v| task.precondition(a, v))?;
    out.push_str(" eff ")?;
    facts(out, task.variables(), |v| task.effect(a, v))?;
    out.push('\n')
}

// The lines of a task, behind what is written.
pub fn describe<T: Priced>(out: &mut String, task: &T) -> Result<(), AllocError> {
    let variables = task.variables();
    let actions = task.actions();
    writeln!(out, "ok {variables} {actions}")?;
    (0..variables).try_for_each(|v| variable(out, task, v))?;
    (0..actions).try_for_each(|a| action(out, task, a))
}
