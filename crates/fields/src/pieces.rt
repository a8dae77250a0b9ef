ghost use Rattle.std.specs.Prelude.{◌≡◌, [], ◌==◌, length, position};
ghost use Rattle.std.specs.Iterator.{YieldsFirstRef, item_count};
ghost use Rattle.fields.specs.Text.{parted};
ghost use Rattle.fields.specs.Held.{pieces_left};

// What is left of a text that is cut at each separator, piece by piece from the left: nothing once the last was given.
// No Model: a type that is copied and has a lifetime can't have one.
#[derive(Clone, Copy)]
pub struct Pieces<'a> {
    rest: Option<&'a [u8]>,
    separator: u8,
}

impl<'a> Pieces<'a> {
    pub(crate) fn of(text: &'a [u8], separator: u8) -> Pieces<'a>
        ensures { pieces_left result ≡ parted separator text.now }
    {
        Pieces {
            rest: Some(text),
            separator,
        }
    }

    pub(crate) fn none() -> Pieces<'a>
        ensures { pieces_left result ≡ [] }
    {
        Pieces {
            rest: None,
            separator: 0,
        }
    }

    // How many pieces are left.
    pub(crate) fn left(&self) -> usize
        ensures { result ≡ length (pieces_left self.now) }
    {
        match self.rest {
            Some(text) => count_pieces(text, self.separator),
            None => 0,
        }
    }
}

// The next piece, which is then no longer left.
impl<'a> Iterator for Pieces<'a> {
    type Item = &'a [u8];

    ghost next_gives = { YieldsFirstRef pieces_left };

    ghost remaining = { item_count pieces_left };

    #[tactic(auto, using(crate::proofs::Cuts::cut_more, crate::proofs::Cuts::cut_last))]
    fn next(&mut self) -> Option<&'a [u8]> {
        let text = self.rest?;
        let Some(n) = head_len(text, self.separator) else {
            self.rest = None;
            return Some(text);
        };
        self.rest = Some(&text[n + 1..]);
        Some(&text[..n])
    }
}

// How many bytes stand before the first separator, where there is one. Never inlined: written out for each of a line's five
// fields, the loop takes more steps for each byte.
#[inline(never)]
fn head_len(text: &[u8], separator: u8) -> Option<usize>
    ensures { result ≡ position (λ b. b == separator) text.now }
{
    text.iter().position(|b| *b == separator)
}

// One more than there are separators.
fn count_pieces(text: &[u8], separator: u8) -> usize
    ensures { result ≡ length (parted separator text.now) }
{
    let mut n = 1;
    for b in text {
        if *b == separator {
            n += 1;
        }
    }
    n
}
