// A text as it is shown on a terminal.
ghost use Rattle.std.specs.Prelude.{◌≡◌};
ghost use Rattle.station.specs.Station.{shown_byte as shown_of, shown};

#[tactic(auto, using(std::proofs::lemmas::Bool::Decides::nat_tests))]
fn shown_byte(b: u8) -> u8
    ensures { result ≡ shown_of b }
{
    if matches!(b, 0x20..=0x7E) { b } else { b'?' }
}

// Puts `?` in place of each byte that no name has.
#[tactic(auto, using(crate::proofs::StationLaws::showing))]
pub fn show(s: &mut [u8])
    ensures { s.new ≡ shown s.old }
{
    for b in s.iter_mut() {
        *b = shown_byte(*b);
    }
}
