ghost use Rattle.std.specs.Prelude.{◌≡◌, true};
ghost use Rattle.fields.specs.Form.{name_at};

pub(crate) mod text;

// A name: 1 to 16 bytes, small letters and digits, the first a letter. They stand at the front of the array.
// An array with the length beside it, since no line may need memory. With an ArrayString the edit of `as_bytes` that gives
// out the unused room too could not be kept. No Model: a name is copied, and its bytes don't give the array back.
#[derive(Clone, Copy)]
pub struct Name {
    bytes: [u8; 16],
    len: usize,
    ghost ok: { name_at bytes len ≡ true },
}
