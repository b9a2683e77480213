#![tactic(auto)]

// Prints the sentence of each refusal, a line each: its number, a tab and the sentence, with {} where a name stands.
use answer::{Place, Refusal};
use std::io;
use std::io::Write;

const PLACE: Place = Place { file: 0, line: 0 };

// Each refusal, in the order of the table.
const REFUSALS: [Refusal; 19] = [
    Refusal::IndexLine(0),
    Refusal::TooManyRecords,
    Refusal::PastContents(0),
    Refusal::NameTwice(0),
    Refusal::WideByte(PLACE),
    Refusal::NameForm,
    Refusal::ListForm,
    Refusal::Sizes,
    Refusal::NestedRegion(PLACE),
    Refusal::FragmentMarker(PLACE),
    Refusal::UnclosedRegion(PLACE),
    Refusal::PeerWithoutHeading(PLACE),
    Refusal::OnChain(PLACE),
    Refusal::Absent(PLACE),
    Refusal::Allowance(PLACE),
    Refusal::HeadingLevel(PLACE),
    Refusal::TextLimit(PLACE),
    Refusal::NoTitle(0),
    Refusal::SharedAnchor(PLACE, PLACE),
];

fn main(rt: HostRuntime) -> io::Result<()> {
    let mut out = io::writer(&rt);
    for refusal in REFUSALS {
        let number = refusal.number();
        let first = words::up_to_name(refusal);
        match words::behind_name(refusal) {
            Some(rest) => writeln!(out, "{number}\t{first}{{}}{rest}")?,
            None => writeln!(out, "{number}\t{first}")?,
        }
    }
    Ok(())
}
