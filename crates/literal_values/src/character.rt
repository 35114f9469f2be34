//! Characters that stand for themselves.
ghost use Rattle.std.specs.Prelude.{◌≡◌, ◌≤◌, Option, None, slice_get, drop, unwrap_or};
ghost use Rattle.std.specs.Option.{option_copied};
ghost use Rattle.literal_values.specs.Names.{nothing};
ghost use Rattle.literal_values.specs.Values.{character, six_bits, three_bytes, two_bytes, four_bytes};

/// What stands in a literal: a character, or none where it is a gap or `\&`, and its length.
#[derive(Clone, Copy, Debug, PartialEq, Eq)]
pub struct Item {
    pub code: Option<u32>,
    pub len: usize,
}

/// No character, of no length.
pub fn nothing() -> Item
    ensures { result ≡ nothing }
{
    Item { code: None, len: 0 }
}

/// The bytes without so many at the front.
pub fn behind(len: usize, bytes: &[u8]) -> &[u8]
    ensures { result.now ≡ drop len bytes.now }
{
    if len <= bytes.len() {
        &bytes[len..]
    } else {
        &[]
    }
}

/// The bits of a byte behind the first of a character past ASCII.
fn six_bits(bytes: &[u8], at: usize) -> u32
    ensures value { result ≡ six_bits bytes.now at }
    ensures within { result ≤ 127 }
{
    match bytes.get(at) {
        Some(byte) => byte.saturating_sub(128) as u32,
        None => 0,
    }
}

fn two_bytes(first: u8, rest: &[u8]) -> u32
    ensures { result ≡ two_bytes first rest.now }
{
    let high = first.saturating_sub(192) as u32;
    high * 64 + six_bits(rest, 0)
}

fn three_bytes(first: u8, rest: &[u8]) -> u32
    ensures { result ≡ three_bytes first rest.now }
{
    let high = first.saturating_sub(224) as u32;
    (high * 64 + six_bits(rest, 0)) * 64 + six_bits(rest, 1)
}

fn four_bytes(first: u8, rest: &[u8]) -> u32
    ensures { result ≡ four_bytes first rest.now }
{
    let high = first.saturating_sub(240) as u32;
    ((high * 64 + six_bits(rest, 0)) * 64 + six_bits(rest, 1)) * 64 + six_bits(rest, 2)
}

/// A character that stands for itself, in UTF-8.
pub fn character(first: u8, rest: &[u8]) -> Item
    ensures { result ≡ character first rest.now }
{
    if first < 192 {
        Item {
            code: Some(first as u32),
            len: 0,
        }
    } else if first < 224 {
        Item {
            code: Some(two_bytes(first, rest)),
            len: 1,
        }
    } else if first < 240 {
        Item {
            code: Some(three_bytes(first, rest)),
            len: 2,
        }
    } else {
        Item {
            code: Some(four_bytes(first, rest)),
            len: 3,
        }
    }
}
