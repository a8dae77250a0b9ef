ghost use Rattle.std.specs.Prelude.{◌≡◌, length, take, if◌then◌else◌, Some, None, map};
ghost use Rattle.theory.specs.Lists.{all};
ghost use Rattle.fields.specs.Text.{fields, at, items, name_form, number_form, value};
ghost use Rattle.fields.specs.Read.{name_in, number_in, mark_in, list_in, short_list_in};
ghost use Rattle.fields.specs.Held.{name_text, pieces_left, line_fields, answered, count_in};

use crate::faults::{FieldCause, FieldFault, LineFault};
use crate::name::Name;
use crate::name::text::is_name;
use crate::pieces::Pieces;

// A line cut at its tabs: its first fields, how many it has, and how many bytes.
// An array with the count beside it, since no line may need memory; an ArrayVec is not Copy, which a public line is.
// No Model: a type that is copied and has a lifetime can't have one.
#[derive(Clone, Copy)]
pub struct Line<'a> {
    at: [&'a [u8]; 5],
    count: usize,
    len: usize,
}

impl<'a> Line<'a> {
    pub fn cut(bytes: &'a [u8]) -> Line<'a>
        ensures first { line_fields result ≡ take 5 (fields bytes.now) }
        ensures count { result.count ≡ length (fields bytes.now) }
        ensures len { result.len ≡ length bytes.now }
    {
        let mut pieces = Pieces::of(bytes, b'\t');
        let mut at: [&'a [u8]; 5] = [&[]; 5];
        let mut first = 0;
        for i in 0..5 {
            let Some(piece) = pieces.next() else {
                break;
            };
            at[i] = piece;
            first = i + 1;
        }
        Line {
            at,
            // the others are counted and not cut: a line that is too long is looked at once, without a search for each piece
            count: first + pieces.left(),
            len: bytes.len(),
        }
    }

    // Whether the line has so many fields, and at most 255 bytes. The fault tells how many fields it has, however long it is.
    pub fn check_count(&self, wanted: usize) -> Result<(), LineFault>
        ensures { result ≡ count_in self.now wanted }
    {
        if self.count != wanted || self.len > 255 {
            return Err(LineFault::Count(self.count));
        }
        Ok(())
    }

    // Field k, from 1; empty where there is none.
    // The questions on a field take k, here and in the callers: they are public, and a type for one field would only turn
    // `line.name(2)` into `line.field(2).name()`.
    pub fn field(&self, k: u8) -> &'a [u8]
        ensures { result.now ≡ at (line_fields self.now) k }
    {
        let before = usize::from(k).saturating_sub(1);
        if before >= self.count {
            return &[];
        }
        self.at.get(before).copied().unwrap_or(&[])
    }

    pub fn name(&self, k: u8) -> Result<Name, FieldFault>
        ensures { answered name_text result ≡ name_in (line_fields self.now) k }
    {
        Name::new(self.field(k)).ok_or(FieldFault::form(k))
    }

    // A number from low to high.
    pub fn number(&self, k: u8, low: u32, high: u32) -> Result<u32, FieldFault>
        ensures { result ≡ number_in (line_fields self.now) k low high }
    {
        let n = number(self.field(k)).ok_or(FieldFault::form(k))?;
        if n < low || n > high {
            return Err(FieldFault::range(k));
        }
        Ok(n)
    }

    // Whether the mark is v; the other mark is n.
    pub fn mark(&self, k: u8) -> Result<bool, FieldFault>
        ensures { result ≡ mark_in (line_fields self.now) k }
    {
        match self.field(k) {
            [b'v'] => Ok(true),
            [b'n'] => Ok(false),
            _ => Err(FieldFault::form(k)),
        }
    }

    // The names of a list.
    pub fn list(&self, k: u8) -> Result<Pieces<'a>, FieldFault>
        ensures { answered pieces_left result ≡ list_in (line_fields self.now) k }
    {
        let names = names_of(self.field(k));
        if !all_names(names) {
            return Err(FieldFault::form(k));
        }
        Ok(names)
    }

    // The names of a list of so many at most.
    pub fn short_list(&self, k: u8, most: usize) -> Result<Pieces<'a>, FieldFault>
        ensures { answered pieces_left result ≡ short_list_in (line_fields self.now) k most }
    {
        let names = self.list(k)?;
        let mut rest = names;
        if rest.nth(most).is_some() {
            return Err(FieldFault::range(k));
        }
        Ok(names)
    }
}

// What stands between the commas of a list; nothing for a lone hyphen.
fn names_of(list: &[u8]) -> Pieces<'_>
    ensures { pieces_left result ≡ items list.now }
{
    match list {
        [b'-'] => Pieces::none(),
        _ => Pieces::of(list, b','),
    }
}

// Whether each of the pieces is a name.
fn all_names(pieces: Pieces<'_>) -> bool
    ensures { result ≡ all name_form (pieces_left pieces.entry) }
{
    let mut pieces = pieces;
    pieces.all(is_name)
}

// The value of a text that is a number: 1 to 6 decimal digits, with no zero before another digit.
// Digit by digit: beside `parse`, which takes other texts too, the tests would stay, and from_utf8 come before it.
fn number(text: &[u8]) -> Option<u32>
    ensures { result ≡ (if number_form text.now then Some (value 0 text.now) else None) }
{
    if text.is_empty() || text.len() > 6 {
        return None;
    }
    if text[0] == b'0' && text.len() > 1 {
        return None;
    }
    let mut n = 0u32;
    for d in text {
        if !d.is_ascii_digit() {
            return None;
        }
        n = n * 10 + u32::from(*d - b'0');
    }
    Some(n)
}
