// Numbers in and out: the states, kinds and levels of the library as numbers, since the C calls that tests make hand over nothing else.
ghost use Rattle.std.specs.Prelude.{◌≡◌};
ghost use Rattle.leaf.specs.Leaf.{fence_of, state_of, fence_number, step_numbers, one as one_number, top_number, top_of, moved_numbers, moved_of};

use fence::Fence;
use heading::level;
use heading::walk::{LineKind, WalkState};

fn fence(n: u64) -> Option<Fence>
    ensures { result ≡ fence_of n }
{
    match n {
        1 => Some(Fence::Ticks),
        2 => Some(Fence::Tildes),
        _ => None,
    }
}

pub fn state(n: u64, comment: u64) -> WalkState
    ensures { result ≡ state_of n comment }
{
    WalkState {
        fence: fence(n),
        comment: comment != 0,
    }
}

fn of_fence(fence: Option<Fence>) -> u64
    ensures { result ≡ fence_number fence }
{
    match fence {
        None => 0,
        Some(Fence::Ticks) => 1,
        Some(Fence::Tildes) => 2,
    }
}

pub fn of_step(kind: LineKind, state: WalkState) -> [u64; 6]
    ensures { result ≡ step_numbers kind state }
{
    let fence = of_fence(state.fence);
    let comment = u64::from(state.comment);
    match kind {
        LineKind::Quoted => [2, 0, 0, 0, fence, comment],
        LineKind::Heading { level, start, end } => [
            1,
            level as u64,
            start as u64,
            end as u64,
            fence,
            comment,
        ],
        LineKind::Other => [0, 0, 0, 0, fence, comment],
    }
}

// A number, and five zeros.
pub fn one(n: u64) -> [u64; 6]
    ensures { result ≡ one_number n }
{
    [n, 0, 0, 0, 0, 0]
}

pub fn of_top(found: Option<usize>) -> u64
    ensures { result ≡ top_number found }
{
    found.unwrap_or(0) as u64
}

fn top(n: u64) -> Option<usize>
    ensures { result ≡ top_of n }
{
    (n != 0).then_some(n as usize)
}

fn of_moved(moved: Option<usize>) -> [u64; 6]
    ensures { result ≡ moved_numbers moved }
{
    match moved {
        Some(n) => [1, n as u64, 0, 0, 0, 0],
        None => [0, 0, 0, 0, 0, 0],
    }
}

pub fn of_move(target: u64, shallowest: u64, level: u64) -> [u64; 6]
    ensures { result ≡ moved_of target shallowest level }
{
    if !(1..=7).contains(&target) || !(1..=7).contains(&level) || shallowest > 6 {
        return one(2);
    }
    let shift = level::shift_to(target as usize, top(shallowest));
    of_moved(level::shifted(level as usize, shift))
}
