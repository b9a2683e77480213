// Numbers as a cursor, and the region found there as numbers.
ghost use Rattle.std.specs.Prelude.{◌≡◌};
ghost use Rattle.leaf.specs.Region.{kind_number, region_numbers, marker_numbers, NextFrom};

use scan::event::Region;
use scan::region;
use scan::region::Cursor;

// The next whole region from a place and the number of lines before it on; none where these are no cursor.
pub fn next_from(text: &[u8], at: u64, line: u64) -> Option<(Region, Cursor)>
    ensures { NextFrom text.now at line result }
{
    if (text.len() as u64) < at || at < line {
        return None;
    }
    region::next_region(
        text,
        Cursor {
            at: at as usize,
            line: line as usize,
        },
    )
}

fn kind(region: Region) -> u64
    ensures { result ≡ kind_number region }
{
    if region.peer { 2 } else { 1 }
}

pub fn of_region(found: Option<(Region, Cursor)>) -> [u64; 6]
    ensures { result ≡ region_numbers found }
{
    match found {
        Some((region, next)) => [
            kind(region),
            region.path.start as u64,
            region.path.end as u64,
            next.at as u64,
            next.line as u64,
            0,
        ],
        None => [0, 0, 0, 0, 0, 0],
    }
}

pub fn of_markers(found: Option<(Region, Cursor)>) -> [u64; 6]
    ensures { result ≡ marker_numbers found }
{
    match found {
        Some((region, _)) => [
            kind(region),
            region.opener.line as u64,
            region.opener.at as u64,
            region.closer.line as u64,
            region.closer.at as u64,
            0,
        ],
        None => [0, 0, 0, 0, 0, 0],
    }
}
