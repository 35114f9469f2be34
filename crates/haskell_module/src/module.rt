//! The module or signature that a source is.
ghost use Rattle.std.specs.Prelude.{◌≡◌, Some};
ghost use Rattle.hs_modules.specs.ModuleForms.{module_form, sig_form};
ghost use Rattle.haskell_module.specs.Sources.{ChecksSource};
ghost use Rattle.haskell_module.specs.Modules.{parse_error, parsed, name_of, name_index, named_as, module_read, signature_read};

use crate::error::SourceError;
use crate::tokens::{offset_at, read_tokens};
use haskell_parse::{parse_module, parse_signature};
use hs_forms::ParseError;
use hs_modules::Module;
use hs_tokens::{Token, Tokens};
use std::alloc::Global;

fn parse_failed(laid: &[Token], end: u64, error: ParseError) -> SourceError
    ensures { result ≡ parse_error laid.now end error }
{
    match error {
        ParseError::Syntax { index } => SourceError::Syntax {
            offset: offset_at(laid, end, index),
        },
        ParseError::DepthLimit { .. } => SourceError::Nesting,
        ParseError::NoMemory => SourceError::NoMemory,
    }
}

/// The module that tokens by layout spell.
fn module_of(alloc: Global, laid: &Tokens, end: u64) -> Result<Module, SourceError>
    ensures { ChecksSource (parsed module_form (Some 200) end laid.now) result }
{
    match parse_module(alloc, laid) {
        Ok(module) => Ok(module),
        Err(error) => Err(parse_failed(laid.as_slice(), end, error)),
    }
}

/// The signature that tokens by layout spell.
fn signature_of(alloc: Global, laid: &Tokens, end: u64) -> Result<Module, SourceError>
    ensures { ChecksSource (parsed sig_form (Some 200) end laid.now) result }
{
    match parse_signature(alloc, laid) {
        Ok(signature) => Ok(signature),
        Err(error) => Err(parse_failed(laid.as_slice(), end, error)),
    }
}

/// The name in the head; a module without one is `Main` (Haskell 2010 Report, section 5.1).
fn name_of(tree: &Module) -> &[u8]
    ensures { result.now ≡ name_of tree.now }
{
    match tree {
        Module::Headless(_) => b"Main",
        Module::Named(name, _) => name.as_bytes(),
        Module::Exporting(name, _, _) => name.as_bytes(),
        Module::Signature(name, _) => name.as_bytes(),
    }
}

/// The index of the token that tells the name; without a head it is the first one.
fn name_index(tree: &Module) -> u64
    ensures { result ≡ name_index tree.now }
{
    match tree {
        Module::Headless(_) => 0,
        Module::Named(_, _) | Module::Exporting(_, _, _) | Module::Signature(_, _) => 1,
    }
}

/// The tree, if it has this name.
fn named_as(laid: &[Token], end: u64, name: &[u8], tree: Module) -> Result<Module, SourceError>
    ensures { ChecksSource (named_as name.now end laid.now tree) result }
{
    if name_of(&tree) == name {
        return Ok(tree);
    }
    let index = name_index(&tree);
    Err(SourceError::Syntax {
        offset: offset_at(laid, end, index),
    })
}

/// The module of this name that a source is, as it stands in a `.hs` file (Haskell 2010 Report, section 5.1).
///
/// What the lexer refuses comes first, then what layout refuses, then the first token with which the source begins no module
/// (Syntax) or only one that nests deeper than 200 (Nesting), and last Syntax at the name of a head that tells another one, or
/// at the first token where a module without a head is not to be `Main`.
#[tactic(auto, unfolding(crate::specs::Modules::module_read))]
pub fn read_module(alloc: Global, name: &[u8], bytes: &[u8]) -> Result<Module, SourceError>
    ensures { ChecksSource (module_read (Some 200) name.now bytes.now) result }
{
    let end = bytes.len() as u64;
    let laid = read_tokens(alloc, bytes)?;
    let module = module_of(alloc, &laid, end)?;
    named_as(laid.as_slice(), end, name, module)
}

/// The signature of this name that a source is, as it stands in a `.hsig` file (Yang 2017, "Backpack: Towards Practical Mix-in
/// Linking for Haskell"). It refuses in the order in which `read_module` does.
#[tactic(auto, unfolding(crate::specs::Modules::signature_read))]
pub fn read_signature(alloc: Global, name: &[u8], bytes: &[u8]) -> Result<Module, SourceError>
    ensures { ChecksSource (signature_read (Some 200) name.now bytes.now) result }
{
    let end = bytes.len() as u64;
    let laid = read_tokens(alloc, bytes)?;
    let signature = signature_of(alloc, &laid, end)?;
    named_as(laid.as_slice(), end, name, signature)
}
