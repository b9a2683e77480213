#![tactic(auto)]

// What a call on files of a disk needs beside their texts: the records of an index, the limit, and what stands on a line of a note.
ghost use Rattle.std.specs.Prelude.{◌≡◌, ◌≤◌};
ghost use Rattle.station.specs.Station.{largest_limit};

pub mod argument;
pub mod failed;
pub mod input;
pub mod line;
pub mod note;
pub mod record;
pub mod shown;

// The largest text limit of all.
const MOST: usize = 1_048_576;

// The largest text limit that a work buffer of a size allows for so many notes and list lines.
#[tactic(auto, unfolding(crate::specs::Station::largest_limit))]
pub fn largest_limit(work: usize, notes: usize, lines: usize) -> usize
    requires { (notes ≤ 64) × (lines ≤ 65536) }
    ensures { result ≡ largest_limit work notes lines }
{
    let limit = work / (notes + lines + 2);
    limit.min(MOST)
}
