mod joins;
pub(crate) mod tally;

// Is there a valid tree? A bool would be no plainer: a bare `true` doesn't say whose yes it is.
#[derive(Clone, Copy)]
pub enum Answer {
    No,
    Yes,
}
