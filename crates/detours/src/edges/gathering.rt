// Gathering the free actions, in ascending number, once for all values.
ghost use Rattle.std.specs.Prelude.{◌≡◌, ◌||◌, ◌==◌};
ghost use Rattle.tasks.specs.Task.{priced};
ghost use Rattle.detours.specs.Free.{is_free, unmentioned};
ghost use Rattle.detours.specs.Edges.{edge_of, free_edges, edges_in};

use crate::edges::{Edge, Edges};
use arrayvec::ArrayVec;
use tasks::{Priced, Task};

// Whether w is the variable itself or the action does not mention it.
fn leaves_alone<T: Task>(task: &T, variable: u8, action: u16, w: u8) -> bool
    ensures { result ≡ (w == variable || unmentioned (T.meant task.now) action w) }
{
    w == variable || (task.precondition(action, w).is_none() && task.effect(action, w).is_none())
}

// Whether the action sets the variable and mentions no other.
pub fn is_free<T: Task>(task: &T, variable: u8, action: u16) -> bool
    ensures { result ≡ is_free (T.meant task.now) variable action }
{
    task.action_live(action)
        && task.effect(action, variable).is_some()
        && (0..task.variables()).all(|w| leaves_alone(task, variable, action, w))
}

impl Edges {
    pub fn as_slice(&self) -> &[Edge]
        ensures { result.now ≡ edges_in self.now }
    {
        self.list.as_slice()
    }
}

// The edge of an action, if it is free.
fn edge<T: Priced>(task: &T, variable: u8, action: u16) -> Option<Edge>
    ensures { result ≡ edge_of (priced (T.Task.meant task.now) (T.Priced.tariff task.now)) variable action }
{
    let to = task.effect(action, variable)?;
    is_free(task, variable, action).then(|| Edge {
        action,
        from: task.precondition(action, variable),
        to,
        price: task.price(action),
    })
}

// The free actions of a variable. The loop stands for an `extend`, whose answer has an error that never comes.
#[tactic(auto, using(crate::proofs::GatherLoop::gathered_more, crate::proofs::GatherLoop::gathered_same))]
pub fn gather<T: Priced>(task: &T, variable: u8) -> Edges
    ensures { edges_in result ≡ free_edges (priced (T.Task.meant task.now) (T.Priced.tariff task.now)) variable (T.Task.meant task.now).acts 0 }
{
    let mut list = ArrayVec::new();
    for action in 0..task.actions() {
        if let Some(edge) = edge(task, variable, action) {
            list.push(edge);
        }
    }
    Edges { list }
}
