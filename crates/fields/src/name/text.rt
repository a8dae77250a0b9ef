ghost use Rattle.std.specs.Prelude.{◌≡◌, ◌≤◌, length, take, if◌then◌else◌, Some, None};
ghost use Rattle.std.specs.Option.{option_map};
ghost use Rattle.theory.specs.Lists.{all};
ghost use Rattle.fields.specs.Text.{name_form, name_byte, small};
ghost use Rattle.fields.specs.Held.{name_text};

use crate::name::Name;
use std::str::from_utf8;

impl Name {
    // The name that a text is, where it has a name's form.
    pub(crate) fn new(text: &[u8]) -> Option<Name>
        ensures { option_map name_text result ≡ (if name_form text.now then Some text.now else None) }
    {
        if !is_name(text) {
            return None;
        }
        let bytes = padded(text);
        Some(Name {
            bytes,
            len: text.len(),
        })
    }

    pub fn as_bytes(&self) -> &[u8]
        ensures { result.now ≡ name_text self.now }
    {
        &self.bytes[0..self.len]
    }

    pub fn as_str(&self) -> &str
        ensures { result.now ≡ name_text self.now }
    {
        from_utf8(self.as_bytes()).unwrap()
    }
}

// A text of at most 16 bytes at the front of an array.
fn padded(text: &[u8]) -> [u8; 16]
    requires { length text.now ≤ 16 }
    ensures { take (length text.now) result ≡ text.now }
{
    let mut bytes = [0; 16];
    bytes[..text.len()].copy_from_slice(text);
    bytes
}

fn is_small(b: u8) -> bool
    ensures { result ≡ small b }
{
    b.is_ascii_lowercase()
}

fn is_name_byte(b: u8) -> bool
    ensures { result ≡ name_byte b }
{
    is_small(b) || b.is_ascii_digit()
}

fn all_name_bytes(text: &[u8]) -> bool
    ensures { result ≡ all name_byte text.now }
{
    text.iter().all(|b| is_name_byte(*b))
}

pub(crate) fn is_name(text: &[u8]) -> bool
    ensures { result ≡ name_form text.now }
{
    if text.is_empty() || text.len() > 16 {
        return false;
    }
    is_small(text[0]) && all_name_bytes(text)
}
