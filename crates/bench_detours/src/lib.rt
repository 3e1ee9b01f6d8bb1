// What the benchmark in bench/ times: the detours between all cells of a floor. It is proved safe, and no contract says what
// it answers: the benchmark compares that with what a plain Rust program answers.
#![tactic(auto)]

use detours::{Path, detour};
use floors::{Floor, Survey};
use std::alloc::Global;
use tasks::Charge;

// A digest with one number more.
fn mixed(digest: u64, number: u64) -> u64 {
    digest.wrapping_mul(31).wrapping_add(number)
}

// A digest with a detour more: its total and its actions.
fn with_path(digest: u64, path: &Path<u32>) -> u64 {
    path.actions()
        .iter()
        .fold(mixed(digest, u64::from(path.total())), |digest, action| {
            mixed(digest, u64::from(*action))
        })
}

// A digest with the detours from one cell to each. It is a loop, for a chain moves each path once more, which took 3 % longer.
fn with_detours(digest: u64, floor: &Floor, from: u8, table: &mut [u32]) -> u64 {
    let mut all = digest;
    for to in 0..64 {
        if let Some(path) = detour::<Floor, Charge>(floor, 0, from, to, table) {
            all = with_path(all, &path);
        }
    }
    all
}

// A digest of the detours between all cells.
fn all_detours(floor: &Floor, table: &mut [u32]) -> u64 {
    (0..64).fold(0, |digest, from| with_detours(digest, floor, from, table))
}

// The digest for a floor without points whose robot starts at cell 0; 0 for what makes no floor.
#[unsafe(no_mangle)]
pub extern "C" fn bench_detours(
    heap: Global,
    width: u8,
    height: u8,
    blocked: u64,
    prices: &[u16],
) -> u64 {
    let Ok(prices) = prices.to_vec(heap) else {
        return 0;
    };
    let survey = Survey {
        width,
        height,
        blocked,
        prices,
        start: 0,
        points: Vec::new(heap),
        sampling: 0,
    };
    Floor::new(survey).map_or(0, |floor| all_detours(&floor, &mut [0; 64]))
}
