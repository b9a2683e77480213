#![tactic(auto)]

// Anchors: the bytes of a heading text's anchor one after the other, without a buffer.
ghost use Rattle.std.specs.Prelude.{true, false, cond, ◌&&◌, List, ◌∷◌, ◌≡◌, ℕ, ◌≤◌, ◌<◌, length};
ghost use Rattle.std.specs.Iterator.{YieldsFirst, item_count};
ghost use Rattle.text.specs.Bytes.{part, is, any};
ghost use Rattle.text.specs.Pattern.{equals as equals_to};
ghost use Rattle.anchor.specs.Anchor.{stands as stands_in, markup_after, is_mark, is_text, is_seen, is_word, is_kept, cut_left, word_follows, is_word_last, slug, anchor_from, CursorWithin, ReadByte, NextByte, plain_end, anchor_of, stirred, number_from, anchor_number};

use std::marker::Model;
use text::{ascii, bytes, space};

// Where a byte of a heading's text stands.
#[derive(Clone, Copy)]
pub enum Markup {
    // Outside brackets and parentheses.
    Written,
    // In the brackets of a link's text.
    Bracket,
    // Directly behind them.
    Behind,
    // In the parentheses of a link's target.
    Target,
}

// What is left of an anchor: from a place up to another, the first byte standing in this markup. `last` is the byte directly before it once links are cut to their text; where that is an underscore, `stays` says whether its run stays.
#[derive(Clone, Copy)]
pub struct AnchorCursor {
    pub at: usize,
    pub end: usize,
    pub markup: Markup,
    pub last: u8,
    pub stays: bool,
}

// A byte of the text that was read: whether it is text and no markup, and what is left.
#[derive(Clone, Copy)]
struct TextByte {
    byte: u8,
    shown: bool,
    rest: AnchorCursor,
}

fn is_mark(b: u8) -> bool
    ensures { result ≡ is_mark b }
{
    matches!(b, b'`' | b'*' | b'_')
}

// Whether a byte stands once links are cut to their text.
#[tactic(auto, unfolding(crate::specs::Anchor::stands))]
fn stands(markup: Markup, b: u8) -> bool
    ensures { result ≡ stands_in markup b }
{
    match markup {
        Markup::Written => b != b'[',
        Markup::Bracket => b != b']',
        Markup::Behind => !matches!(b, b'(' | b'['),
        Markup::Target => false,
    }
}

// Whether a byte is text and no markup, where no run of underscores stays.
#[tactic(auto, unfolding(crate::specs::Anchor::stands, crate::specs::Anchor::is_linked))]
fn is_text(markup: Markup, b: u8) -> bool
    ensures { result ≡ is_text markup b }
{
    stands(markup, b) && (matches!(markup, Markup::Bracket) || !is_mark(b))
}

// Whether a byte is text and no space byte.
#[inline(always)]
fn is_seen(markup: Markup, b: u8) -> bool
    ensures { result ≡ is_seen markup b }
{
    is_text(markup, b) && !space::is_space(b)
}

// Where the byte after b stands.
#[tactic(auto, unfolding(crate::specs::Anchor::markup_after))]
fn markup_after(markup: Markup, b: u8) -> Markup
    ensures { result ≡ markup_after markup b }
{
    match (markup, b) {
        (Markup::Written | Markup::Behind, b'[') => Markup::Bracket,
        (Markup::Bracket, b']') => Markup::Behind,
        (Markup::Behind, b'(') => Markup::Target,
        (Markup::Behind, _) | (Markup::Target, b')') => Markup::Written,
        _ => markup,
    }
}

// Whether a byte is a letter or digit.
fn is_word(b: u8) -> bool
    ensures { result ≡ is_word b }
{
    ascii::lower(b).is_ascii_lowercase() || b.is_ascii_digit()
}

// Whether an anchor keeps a byte, in lower case.
fn is_kept(b: u8) -> bool
    ensures { result ≡ is_kept b }
{
    is_word(b) || matches!(b, b'-' | b'_')
}

// Where the trimmed text ends: after the last byte that is text and no space byte. An underscore that stays never stands at an end of it.
#[tactic(auto, using(crate::proofs::AnchorLaws::ends))]
fn text_end(text: &[u8]) -> usize
    ensures { (result ≡ plain_end text.now) × (result ≤ length text.now) }
{
    let mut end = 0;
    let mut markup = Markup::Written;
    for (i, &b) in text.iter().enumerate() {
        if is_seen(markup, b) {
            end = i + 1;
        }
        markup = markup_after(markup, b);
    }
    end
}

// The cursor at the start of a text's anchor: at the first byte that is text and no space byte.
pub fn start(text: &[u8]) -> AnchorCursor
    ensures text_value { anchor_from result text.now ≡ slug text.now }
    ensures cursor_within { CursorWithin result text.now }
{
    let end = text_end(text);
    let mut markup = Markup::Written;
    for (i, &b) in text[..end].iter().enumerate() {
        if is_seen(markup, b) {
            return AnchorCursor {
                at: i,
                end,
                markup,
                last: 0,
                stays: false,
            };
        }
        markup = markup_after(markup, b);
    }
    AnchorCursor {
        at: end,
        end,
        markup,
        last: 0,
        stays: false,
    }
}

// Whether a letter or digit stands directly after a run of underscores, of which this is left.
#[tactic(auto, using(crate::proofs::AnchorLaws::following))]
fn word_follows(text: &[u8], from: AnchorCursor) -> bool
    requires { (from.at ≤ from.end) × (from.end ≤ length text.now) }
    ensures { result ≡ word_follows (cut_left from text.now) }
{
    let mut markup = from.markup;
    for &b in &text[from.at..from.end] {
        if b != b'_' && stands(markup, b) {
            return is_word(b);
        }
        markup = markup_after(markup, b);
    }
    false
}

// Whether the run of an underscore stays. The cursor stands behind the underscore, and has the byte before it. What stands after a run is looked for once, at its first underscore.
fn run_stays(text: &[u8], from: AnchorCursor) -> bool
    requires { CursorWithin from text.now }
    ensures { result ≡ (is_word_last from && word_follows (cut_left from text.now)) }
{
    if from.last == b'_' {
        return from.stays;
    }
    is_word(from.last) && word_follows(text, from)
}

// Reads the byte at a cursor; None at the end.
fn read(text: &[u8], from: AnchorCursor) -> Option<TextByte>
    requires { CursorWithin from text.now }
    ensures { ReadByte text.now from result }
{
    if from.at == from.end {
        return None;
    }
    let b = text[from.at];
    let shown = is_text(from.markup, b);
    let mut rest = AnchorCursor {
        at: from.at + 1,
        markup: markup_after(from.markup, b),
        ..from
    };
    if !stands(from.markup, b) {
        return Some(TextByte {
            byte: b,
            shown: false,
            rest,
        });
    }
    if b != b'_' {
        rest.last = b;
        return Some(TextByte {
            byte: b,
            shown,
            rest,
        });
    }
    let stays = run_stays(text, rest);
    rest.last = b;
    rest.stays = stays;
    Some(TextByte {
        byte: b,
        shown: shown | stays,
        rest,
    })
}

// The next byte of an anchor. Inlined, so that the cursor stays in registers: passed through memory it takes a third of the time more.
#[inline(always)]
#[tactic(auto, using(crate::proofs::AnchorLaws::nexts))]
pub fn next(text: &[u8], from: AnchorCursor) -> Option<(u8, AnchorCursor)>
    requires { CursorWithin from text.now }
    ensures { NextByte text.now from result }
{
    let mut c = from;
    while let Some(read) = read(text, c) {
        c = read.rest;
        if read.shown && is_kept(read.byte) {
            return Some((ascii::lower(read.byte), c));
        }
        if read.shown && read.byte == b' ' {
            return Some((b'-', c));
        }
    }
    None
}

// The bytes of an anchor, one after the other: those that a cursor has left.
#[derive(Drop)]
pub struct AnchorBytes<'a> {
    text: &'a [u8],
    left: AnchorCursor,
}

impl<'a> Model for AnchorBytes<'a> {
    ghost use Rattle.std.specs.Prelude.{ℕ, List};
    ghost use Rattle.anchor.specs.Anchor.{anchor_from, CursorWithin};

    ghost Value = { List ℕ };

    ghost view = { λ a. anchor_from a.left a.text.now };

    ghost invariant = { λ a. CursorWithin a.left a.text.now };
}

impl<'a> Iterator for AnchorBytes<'a> {
    type Item = u8;

    ghost next_gives = { YieldsFirst (λ left. left) };

    ghost remaining = { item_count (λ left. left) };

    #[inline(always)]
    fn next(&mut self) -> Option<u8> {
        let (byte, left) = next(self.text, self.left)?;
        self.left = left;
        Some(byte)
    }
}

// The bytes of a heading text's anchor.
pub fn bytes_of(text: &[u8]) -> AnchorBytes<'_>
    ensures { result ≡ slug text.now }
{
    AnchorBytes {
        text,
        left: start(text),
    }
}

// Whether two heading texts have the same anchor.
pub fn same_anchor(s: &[u8], t: &[u8]) -> bool
    ensures { result ≡ equals_to (slug s.now) (slug t.now) }
{
    bytes_of(s).eq(bytes_of(t))
}

// An anchor's number with another byte behind.
fn stir(n: usize, b: u8) -> usize
    requires { n < 0x100_0000_0000 }
    ensures { (result ≡ stirred n b) × (result < 0x100_0000_0000) }
{
    (n + b as usize) * 6700417 % 0x100_0000_0000
}

// The same with a byte of a heading's text that is shown or not, which adds one byte to the anchor or none.
#[tactic(auto, unfolding(crate::specs::Anchor::number_from, crate::specs::Anchor::anchor_of))]
fn stir_in(n: usize, shown: bool, b: u8) -> usize
    requires { n < 0x100_0000_0000 }
    ensures by_index { (s : List ℕ) → number_from n (anchor_of (cond shown (b ∷ s) s)) ≡ number_from result (anchor_of s) }
    ensures upper_bound { result < 0x100_0000_0000 }
{
    if shown && is_kept(b) {
        return stir(n, ascii::lower(b));
    }
    if shown && b == b' ' {
        return stir(n, b'-');
    }
    n
}

// The number of what is left of an anchor, where no underscore is.
#[tactic(auto, using(crate::proofs::AnchorLaws::plains))]
fn number_plain(text: &[u8], from: AnchorCursor) -> usize
    requires { CursorWithin from text.now × (any (is 0x5F) (part from.at from.end text.now) ≡ false) }
    ensures { (result ≡ anchor_number (anchor_from from text.now)) × (result < 0x100_0000_0000) }
{
    let mut markup = from.markup;
    let mut n = 0;
    for &b in &text[from.at..from.end] {
        n = stir_in(n, is_text(markup, b), b);
        markup = markup_after(markup, b);
    }
    n
}

// The number of what is left of an anchor.
#[tactic(auto, unfolding(crate::specs::Anchor::number_from))]
fn number_left(text: &[u8], from: AnchorCursor) -> usize
    requires { CursorWithin from text.now }
    ensures { (result ≡ anchor_number (anchor_from from text.now)) × (result < 0x100_0000_0000) }
{
    let mut n = 0;
    for byte in (AnchorBytes { text, left: from }) {
        n = stir(n, byte);
    }
    n
}

// A number below 2^40 made of the bytes of a heading text's anchor: equal anchors have equal numbers. Most headings have no underscore, and a loop that looks for no run is faster.
pub fn number_of(text: &[u8]) -> usize
    ensures value { result ≡ anchor_number (slug text.now) }
    ensures upper_bound { result < 0x100_0000_0000 }
{
    let c = start(text);
    if bytes::has(&text[c.at..c.end], b'_') {
        return number_left(text, c);
    }
    number_plain(text, c)
}
