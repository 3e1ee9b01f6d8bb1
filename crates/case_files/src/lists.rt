// Lists as the case files write them: commas between the items, and `-` for none.
ghost use Rattle.std.specs.Prelude.{◌≡◌, Ok, IfOk, string_bytes};
ghost use Rattle.std.specs.List.{AllZip};
ghost use Rattle.itertools.specs.Consumer.{ShownBy};
ghost use Rattle.case_files.specs.Lists.{items_of, list_of};

use itertools::Itertools;
use std::alloc::{AllocError, Global};
use std::error::Error;
use std::fmt::Display;
use std::str::FromStr;

// The list of the items, as each is shown.
pub fn list_text<T: Copy + Display>(heap: Global, items: &[T]) -> Result<String, AllocError>
    ensures { IfOk result (λ text.
        ShownBy T.output items.now (λ show. string_bytes text ≡ list_of show items.now)) }
{
    if items.is_empty() {
        return String::from_str(heap, "-");
    }
    items.iter().copied().join(heap, ",")
}

// What the items of a list say, each read by itself.
#[tactic(auto, using(crate::proofs::Reading::push))]
pub fn numbers<T: FromStr + Drop>(heap: Global, text: &str) -> anyhow::Result<Vec<T>>
where
    T::Err: Error,
    ensures { IfOk result (λ numbers.
        AllZip (λ item number. T.from_str_gives item (Ok number)) (items_of text.now) numbers.items) }
{
    let mut numbers = Vec::new(heap);
    if text == "-" {
        return Ok(numbers);
    }
    for item in text.split(',') {
        numbers.push(item.parse::<T>()?)?;
    }
    Ok(numbers)
}
