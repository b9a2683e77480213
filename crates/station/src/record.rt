// The record of a note in an index.
ghost use Rattle.std.specs.Prelude.{◌≡◌, ◌∷◌, ◌+◌, ◌≤◌, length};
ghost use Rattle.std.proofs.lemmas.List.Edits.{sets};
ghost use Rattle.buffer.specs.Decimal.{decimal as decimal_of};
ghost use Rattle.station.specs.Station.{TAB, record_line};

use buffer::decimal;

// Writes a tab and a number at a place of an index, and answers the place after them.
#[tactic(auto, using(buffer::proofs::DecimalLaws::decimal_le))]
fn put_number(index: &mut [u8], at: usize, n: usize) -> usize
    requires { at + length (TAB ∷ decimal_of n) ≤ length index.old }
    ensures { (index.new ≡ sets index.old at (TAB ∷ decimal_of n)) × (result ≡ at + length (TAB ∷ decimal_of n)) }
{
    let mut digits = [0u8; 20];
    let from = decimal::put_before(&mut digits, 20, n);
    index[at] = b'\t';
    buffer::copy(&digits[from..], index, at + 1)
}

// Writes the record of a note at a place of an index, and answers the place after it.
#[tactic(auto, using(crate::proofs::StationLaws::record_put, crate::proofs::StationLaws::record_length))]
pub fn put_record(index: &mut [u8], at: usize, name: &[u8], start: usize, size: usize) -> usize
    requires { at + length (record_line name.now start size) ≤ length index.old }
    ensures { (index.new ≡ sets index.old at (record_line name.now start size)) × (result ≡ at + length (record_line name.now start size)) }
{
    let named = buffer::copy(name, index, at);
    let started = put_number(index, named, start);
    let sized = put_number(index, started, size);
    index[sized] = b'\n';
    sized + 1
}
