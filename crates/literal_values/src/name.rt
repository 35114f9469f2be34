//! The ASCII names of characters.
ghost use Rattle.std.specs.Prelude.{◌≡◌, codes};
ghost use Rattle.literal_values.specs.Names.{first_names, last_names, more_names, named, other_names};

use crate::character::{Item, nothing};

/// The character, where its name stands at the front.
fn named(bytes: &[u8], name: &[u8], code: u32, other: Item) -> Item
    ensures { result ≡ named bytes.now name.now code other }
{
    if bytes.starts_with(name) {
        Item {
            code: Some(code),
            len: name.len(),
        }
    } else {
        other
    }
}

/// The last names of the table.
fn last_names(bytes: &[u8]) -> Item
    ensures { result ≡ last_names bytes.now }
{
    let other = named(bytes, b"DEL", 127, nothing());
    let other = named(bytes, b"SP", 32, other);
    let other = named(bytes, b"US", 31, other);
    let other = named(bytes, b"RS", 30, other);
    let other = named(bytes, b"GS", 29, other);
    let other = named(bytes, b"FS", 28, other);
    let other = named(bytes, b"ESC", 27, other);
    named(bytes, b"SUB", 26, other)
}

/// The names before them.
fn other_names(bytes: &[u8]) -> Item
    ensures { result ≡ other_names bytes.now }
{
    let other = named(bytes, b"EM", 25, last_names(bytes));
    let other = named(bytes, b"CAN", 24, other);
    let other = named(bytes, b"ETB", 23, other);
    let other = named(bytes, b"SYN", 22, other);
    let other = named(bytes, b"NAK", 21, other);
    let other = named(bytes, b"DC4", 20, other);
    let other = named(bytes, b"DC3", 19, other);
    let other = named(bytes, b"DC2", 18, other);
    named(bytes, b"DC1", 17, other)
}

/// The names before those.
fn more_names(bytes: &[u8]) -> Item
    ensures { result ≡ more_names bytes.now }
{
    let other = named(bytes, b"DLE", 16, other_names(bytes));
    let other = named(bytes, b"SI", 15, other);
    let other = named(bytes, b"SO", 14, other);
    let other = named(bytes, b"CR", 13, other);
    let other = named(bytes, b"FF", 12, other);
    let other = named(bytes, b"VT", 11, other);
    let other = named(bytes, b"LF", 10, other);
    let other = named(bytes, b"HT", 9, other);
    named(bytes, b"BS", 8, other)
}

/// The character whose ASCII name stands at the front.
pub fn ascii(bytes: &[u8]) -> Item
    ensures { result ≡ first_names bytes.now }
{
    let other = named(bytes, b"BEL", 7, more_names(bytes));
    let other = named(bytes, b"ACK", 6, other);
    let other = named(bytes, b"ENQ", 5, other);
    let other = named(bytes, b"EOT", 4, other);
    let other = named(bytes, b"ETX", 3, other);
    let other = named(bytes, b"STX", 2, other);
    let other = named(bytes, b"SOH", 1, other);
    named(bytes, b"NUL", 0, other)
}
