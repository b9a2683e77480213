#![tactic(auto)]

// The table of marks. An anchor's number has three places in it. A mark there tells of a file that has an anchor with such a number, by the file's number and
// a print of the anchor's, or is MANY; 0 stands where none does, since the table is bytes that are cleared first. So what stands at all three tells whether
// another file can have an anchor of that number; the table spares work and decides nothing.
ghost use Rattle.std.specs.Prelude.{◌≡◌, ◌≤◌, ◌<◌, length};
ghost use Rattle.marks.specs.Marks.{Mark, Marks, mark_of, print_of};

const MANY: u8 = 255;

// The mark of a file for an anchor's number.
fn mark_of(number: usize, file: usize) -> u8
    requires { (1 ≤ file) × (file ≤ 64) }
    ensures { (result ≡ mark_of number file) × ((1 ≤ result) × (result ≤ 192)) }
{
    (file + 64 * (number % 3)) as u8
}

fn print_of(mark: u8) -> u8
    requires { 1 ≤ mark }
    ensures { result ≡ print_of mark }
{
    (mark - 1) / 64
}

// Puts a mark at a place, or MANY where another stands. Answers whether the other may tell of an anchor with the same number.
fn mark(table: &mut [u8], at: usize, mine: u8) -> bool
    requires { (at < length table.old) × ((1 ≤ mine) × (mine ≤ 192)) }
    ensures { Mark table.old table.new at mine result }
{
    let old = table[at];
    if old == mine {
        return false;
    }
    if old == 0 {
        table[at] = mine;
        return false;
    }
    table[at] = MANY;
    old == MANY || print_of(old) == print_of(mine)
}

// Marks the places of an anchor's number. Answers whether a file other than this one may have been marked at all of them before.
pub fn mark_anchor(table: &mut [u8], number: usize, file: usize) -> bool
    requires { (0 < length table.old) × ((1 ≤ file) × (file ≤ 64)) }
    ensures { Marks table.old table.new number file result }
{
    let n = table.len();
    let mine = mark_of(number, file);
    let one = mark(table, number % n, mine);
    let two = mark(table, number / n % n, mine);
    let three = mark(table, number % 16777213 % n, mine);
    one & two & three
}
