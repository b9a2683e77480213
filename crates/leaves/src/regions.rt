// Leaf calls on the regions of a text.
ghost use Rattle.leaf.specs.Region.{region_numbers, marker_numbers, RegionAnswer};

use leaf::regions;

// The next whole region from a place and the number of lines before it on: 1, or 2 for a peer, where its path starts and ends, and place and line of
// the cursor after it; 0 where there is none or the two numbers are no cursor.
#[unsafe(no_mangle)]
pub extern "C" fn leaf_region(text: &[u8], at: u64, line: u64, answer: &mut [u64; 6])
    ensures { RegionAnswer region_numbers text.now at line answer.new }
{
    let found = regions::next_from(text, at, line);
    *answer = regions::of_region(found);
}

// The same region's marker lines: 1, or 2 for a peer, number and place of its opener, and of its closer.
#[unsafe(no_mangle)]
pub extern "C" fn leaf_region_lines(text: &[u8], at: u64, line: u64, answer: &mut [u64; 6])
    ensures { RegionAnswer marker_numbers text.now at line answer.new }
{
    let found = regions::next_from(text, at, line);
    *answer = regions::of_markers(found);
}
