#![tactic(auto)]

// A sentence for each refusal: what the crew has to mend. A name stands inside some of them. No Display: the name is known only where the
// refusal is told, as bytes of an argument, a note or the list.
ghost use Rattle.std.specs.Prelude.{◌≡◌, is_some};
ghost use Rattle.words.specs.Words.{has_name};

use answer::Refusal;

const INDEX_LINE: &str =
    "the name is not 1 to 255 printable ASCII bytes, or its index line is ill formed: rename the file";

const PAST_CONTENTS: &str =
    "the record's part ends past the contents: mend its start or its length";

const NAME_FORM: &str =
    "the URL, or the name of a host, is not 1 to 255 printable ASCII bytes: mend it";

const LIST_FORM: &str =
    "the list has more than 64 lines or its last line has no end: mend the list";

const SIZES: &str =
    "the text limit is not 1 to 1,048,576, or a buffer is too short for it: change the limit or lend larger buffers";

const NESTED_REGION: &str = "the region is opened inside a region: close the first one above it";

const FRAGMENT_MARKER: &str =
    "the fragment marker shares its line or is ill spelled: write <!--[fragment:PATH]--> alone on a line";

const UNCLOSED_REGION: &str = "the region is never closed: put <!--[/]--> on a line below it";

const PEER_WITHOUT_HEADING: &str =
    "the region takes in a peer and no heading of the file stands above it: put a heading above, or leave :peer out";

const ALLOWANCE: &str =
    "as many files as the allowance has are taken in already: a limit was met, no file needs mending";

const HEADING_LEVEL: &str =
    "the heading would be past level 6 where its text stands (lines count the text as it stands there): give it fewer hashes, or take the text in under a higher heading";

const TEXT_LIMIT: &str =
    "the text made here is too long for the text limit or the output: a limit was met, no file needs mending";

const BEHIND_ABSENT: &str = ", which is not among the notes: mend the name or give the note";

const BEHIND_SHARED: &str =
    " (lines count the notes as filled, without hand-written contents): change one of the two, or let only one of the notes take it in";

// The sentence of a refusal up to the name in it, or whole.
pub fn up_to_name(refusal: Refusal) -> &'static str {
    match refusal {
        Refusal::IndexLine(_) => INDEX_LINE,
        Refusal::TooManyRecords => "there are more than 64 records: give fewer files",
        Refusal::PastContents(_) => PAST_CONTENTS,
        Refusal::NameTwice(_) => "the name was given before: give each file once",
        Refusal::WideByte(_) => "the line holds a byte that is not ASCII: write it in ASCII",
        Refusal::NameForm => NAME_FORM,
        Refusal::ListForm => LIST_FORM,
        Refusal::Sizes => SIZES,
        Refusal::NestedRegion(_) => NESTED_REGION,
        Refusal::FragmentMarker(_) => FRAGMENT_MARKER,
        Refusal::UnclosedRegion(_) => UNCLOSED_REGION,
        Refusal::PeerWithoutHeading(_) => PEER_WITHOUT_HEADING,
        Refusal::OnChain(_) => "the region names ",
        Refusal::Absent(_) => "the line names ",
        Refusal::Allowance(_) => ALLOWANCE,
        Refusal::HeadingLevel(_) => HEADING_LEVEL,
        Refusal::TextLimit(_) => TEXT_LIMIT,
        Refusal::NoTitle(_) => "the member has no heading of level 1: give it a title",
        Refusal::SharedAnchor(_, _) => "the heading has the same anchor as ",
    }
}

// The rest of the sentence behind the name: the file that a line names, or the second place. None where no name stands in it.
pub fn behind_name(refusal: Refusal) -> Option<&'static str>
    ensures { is_some result ≡ has_name refusal }
{
    match refusal {
        Refusal::OnChain(_) => Some(", which is already on its chain"),
        Refusal::Absent(_) => Some(BEHIND_ABSENT),
        Refusal::SharedAnchor(_, _) => Some(BEHIND_SHARED),
        _ => None,
    }
}
