//! The forms of names of packages, components and modules.
ghost use Rattle.std.specs.Prelude.{◌≡◌, ◌==◌, ◌≤◌, length, not};
ghost use Rattle.std.specs.List.{list_all, prefix_len};
ghost use Rattle.std.specs.Char.{is_ascii_alphanumeric};
ghost use Rattle.bp_base.specs.Names.{is_component_name, is_executable_part, is_library_or_executable, is_module_name, is_module_part, is_name_character, is_package_name, is_run};

fn is_alphanumeric(text: &[u8]) -> bool
    ensures { result ≡ list_all is_ascii_alphanumeric text.now }
{
    for b in text {
        if !b.is_ascii_alphanumeric() {
            return false;
        }
    }
    true
}

/// Letters and digits, one at least.
#[tactic(auto, unfolding(crate::specs::Names::is_run))]
fn is_run(text: &[u8]) -> bool
    ensures { result ≡ is_run text.now }
{
    !text.is_empty() && is_alphanumeric(text)
}

/// Whether the text names a package: runs of ASCII letters and digits with single dashes between them. Unlike in the Cabal manual, a
/// run may be digits alone. It takes no memory.
#[tactic(auto, unfolding(crate::specs::Names::is_package_name))]
pub fn is_package_name(text: &[u8]) -> bool
    ensures { result ≡ is_package_name text.now }
{
    text.split(|b| *b == b'-').all(|part| is_run(part))
}

fn is_executable_part(text: &[u8]) -> bool
    ensures { result ≡ is_executable_part text.now }
{
    match text {
        [b'e', b'x', b'e', b':', rest @ ..] => is_package_name(rest),
        _ => false,
    }
}

fn is_library_or_executable(text: &[u8]) -> bool
    ensures { result ≡ is_library_or_executable text.now }
{
    is_package_name(text) || is_executable_part(text)
}

/// How many bytes stand before the first colon.
fn colon_len(text: &[u8]) -> usize
    ensures value { result ≡ prefix_len (λ b. not (b == 58)) text.now }
    ensures within { result ≤ length text.now }
{
    for (i, b) in text.iter().enumerate() {
        if *b == b':' {
            return i;
        }
    }
    text.len()
}

/// Whether the text names a component: `p` for the library of package p, `p:s` for its library s, `p:exe:e` for its executable e. It
/// takes no memory.
#[tactic(auto, unfolding(crate::specs::Names::is_component_name))]
pub fn is_component_name(text: &[u8]) -> bool
    ensures { result ≡ is_component_name text.now }
{
    let len = colon_len(text);
    if !is_package_name(&text[..len]) {
        return false;
    }
    len == text.len() || is_library_or_executable(&text[len + 1..])
}

#[tactic(auto, unfolding(crate::specs::Names::is_name_character))]
fn is_name_character(b: u8) -> bool
    ensures { result ≡ is_name_character b }
{
    b.is_ascii_alphanumeric() || b == b'_' || b == b'\''
}

fn are_name_characters(text: &[u8]) -> bool
    ensures { result ≡ list_all is_name_character text.now }
{
    for b in text {
        if !is_name_character(*b) {
            return false;
        }
    }
    true
}

/// A capital letter, and then characters of names.
fn is_module_part(text: &[u8]) -> bool
    ensures { result ≡ is_module_part text.now }
{
    match text {
        [first, rest @ ..] => first.is_ascii_uppercase() && are_name_characters(rest),
        [] => false,
    }
}

/// Whether the text names a module: parts with dots between them, each an ASCII capital letter and then letters, digits, `_` and `'`
/// (Haskell 2010 Report, section 5.1). It takes no memory.
#[tactic(auto, unfolding(crate::specs::Names::is_module_name))]
pub fn is_module_name(text: &[u8]) -> bool
    ensures { result ≡ is_module_name text.now }
{
    text.split(|b| *b == b'.').all(|part| is_module_part(part))
}
