// Hexadecimal digits, in small letters, as the case files write them.
use anyhow::bail;
use std::alloc::Global;

fn digit(letter: u8) -> anyhow::Result<u8> {
    match letter {
        b'0'..=b'9' => Ok(letter - b'0'),
        b'a'..=b'f' => Ok(letter - b'a' + 10),
        _ => bail!("not a hexadecimal digit"),
    }
}

// Two digits to a byte, and `-` for none. A digit that is left over at the end is dropped.
pub(crate) fn bytes(heap: Global, text: &str) -> anyhow::Result<Vec<u8>> {
    let mut bytes = Vec::new(heap);
    if text == "-" {
        return Ok(bytes);
    }
    let (pairs, rest) = text.as_bytes().as_chunks::<2>();
    for [high, low] in pairs {
        bytes.push(digit(*high)? << 4 | digit(*low)?)?;
    }
    for letter in rest {
        digit(*letter)?;
    }
    Ok(bytes)
}

// A hexadecimal number, of which the lowest 64 bits count.
pub(crate) fn bits(text: &str) -> anyhow::Result<u64> {
    let mut bits = 0u64;
    for letter in text.bytes() {
        bits = bits << 4 | u64::from(digit(letter)?);
    }
    Ok(bits)
}
