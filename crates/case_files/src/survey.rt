// The survey of a floor, as the case files write it.
use crate::bytes::bits;
use crate::lists::numbers;
use floors::Survey;
use std::alloc::Global;

// The words behind `floor`: `W H blocked HEX prices LIST start C points LIST sampling P`. They are known by their places; one
// that is missing counts as 0 or as no list.
pub(crate) fn survey(heap: Global, text: &str) -> anyhow::Result<Survey> {
    let mut words = text.split(' ');
    Ok(Survey {
        width: words.next().unwrap_or("0").parse()?,
        height: words.next().unwrap_or("0").parse()?,
        blocked: bits(words.nth(1).unwrap_or("0"))?,
        prices: numbers(heap, words.nth(1).unwrap_or("-"))?,
        start: words.nth(1).unwrap_or("0").parse()?,
        points: cells(heap, words.nth(1).unwrap_or("-"))?,
        sampling: words.nth(1).unwrap_or("0").parse()?,
    })
}

// A list of cells.
fn cells(heap: Global, text: &str) -> anyhow::Result<Vec<u8>> {
    let mut cells = Vec::new(heap);
    for number in numbers::<u16>(heap, text)?.iter() {
        cells.push(u8::try_from(*number)?)?;
    }
    Ok(cells)
}
