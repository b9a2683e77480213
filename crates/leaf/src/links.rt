// Links and targets as numbers, and numbers as places.
ghost use Rattle.std.specs.Prelude.{◌≡◌, min};
ghost use Rattle.leaf.specs.Link.{link_numbers, target_numbers};

use text::part::Part;

pub fn of_link(found: Option<Part>) -> [u64; 6]
    ensures { result ≡ link_numbers found }
{
    match found {
        Some(Part { start, end }) => [1, start as u64, end as u64, 0, 0, 0],
        None => [0, 0, 0, 0, 0, 0],
    }
}

pub fn of_target(found: Option<usize>) -> [u64; 6]
    ensures { result ≡ target_numbers found }
{
    match found {
        Some(end) => [1, end as u64, 0, 0, 0, 0],
        None => [0, 0, 0, 0, 0, 0],
    }
}

// The smaller of a number and a length.
pub fn at_most(n: u64, length: usize) -> usize
    ensures { result ≡ min n length }
{
    length.min(n as usize)
}
