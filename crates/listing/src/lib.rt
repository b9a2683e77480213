#![tactic(auto)]

// The scan call of document 01: spans, regions and problems of a text, as a listing.
ghost use Rattle.std.specs.Prelude.{◌≡◌, length};
ghost use Rattle.listing.specs.ScanCall.{answer_of, output_of};

use answer::{Answer, Place, Refusal};

pub mod listing;

// Scans a text and writes its listing.
#[tactic(auto, unfolding(crate::specs::ScanCall::answer_of, crate::specs::ScanCall::output_of))]
pub fn scan(text: &[u8], out: &mut [u8]) -> Result<Answer, Refusal>
    ensures value { result ≡ answer_of (length out.old) text.now }
    ensures out_after { out.new ≡ output_of result text.now out.old }
{
    if let Some(line) = text::ascii::wide_line(text) {
        return Err(Refusal::WideByte(Place { file: 0, line }));
    }
    listing::list(text, out)
}
