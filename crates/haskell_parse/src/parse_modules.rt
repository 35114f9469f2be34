//! The module or signature that tokens spell.
ghost use Rattle.std.specs.Prelude.{◌≡◌, List, map, Some, None, true, false};
ghost use Rattle.hs_forms.specs.Reading.{begins};
ghost use Rattle.hs_forms.specs.Whole.{Spells};
ghost use Rattle.hs_tokens.specs.Terminals.{terminal_of};
ghost use Rattle.hs_tokens.specs.declared.terminal.Terminal.{Terminal};
ghost use Rattle.hs_modules.specs.ModuleForms.{items_form, module_form, sig_form};
ghost use Rattle.hs_modules.specs.declared.module.Module.{Module};
ghost use Rattle.hs_headers.specs.Names.{is_signature_word};
ghost use Rattle.hs_signature_forms.specs.Signatures.{signature_sort};
ghost use Rattle.hs_body_forms.specs.Bodies.{module_sort};
ghost use Rattle.hs_readers.specs.Answers.{Answers};
ghost use Rattle.hs_one_tree.proofs.WithinLemmas.{one_module_within, one_signature_within, one_items_within};
ghost use Rattle.haskell_parse.specs.Items.{items_sort};
ghost use Rattle.haskell_parse.specs.Parsed.{IsParsed};

use crate::reading::{Readable, Unambiguous, parse};
use hs_bodies::read_module;
use hs_forms::{Fault, ParseError};
use hs_headers::after_signature;
use hs_modules::Module;
use hs_readers::Read;
use hs_signatures::read_signature;
use hs_tokens::{Terminal, Tokens};
use std::alloc::Global;

/// Modules.
pub struct Modules {}

/// Signatures.
pub struct Signatures {}

/// Modules and signatures.
pub struct SourceItems {}

impl Readable for Modules {
    type Tree = Module;

    ghost sort = { module_sort };

    fn read<'a>(
        alloc: Global,
        tokens: &'a [Terminal],
        limit: Option<usize>,
    ) -> Result<Read<'a, Module>, Fault>
        ensures { Answers (module_sort limit) tokens.now result }
    {
        read_module(alloc, tokens, limit)
    }
}

impl Readable for Signatures {
    type Tree = Module;

    ghost sort = { signature_sort };

    fn read<'a>(
        alloc: Global,
        tokens: &'a [Terminal],
        limit: Option<usize>,
    ) -> Result<Read<'a, Module>, Fault>
        ensures { Answers (signature_sort limit) tokens.now result }
    {
        read_signature(alloc, tokens, limit)
    }
}

/// The signature at the front of the terminals, among modules and signatures.
fn read_signature_item<'a>(
    alloc: Global,
    tokens: &'a [Terminal],
    limit: Option<usize>,
) -> Result<Read<'a, Module>, Fault>
    requires { begins is_signature_word tokens.now ≡ true }
    ensures { Answers (items_sort limit) tokens.now result }
{
    read_signature(alloc, tokens, limit)
}

/// The module at the front of the terminals, among modules and signatures.
fn read_module_item<'a>(
    alloc: Global,
    tokens: &'a [Terminal],
    limit: Option<usize>,
) -> Result<Read<'a, Module>, Fault>
    requires { begins is_signature_word tokens.now ≡ false }
    ensures { Answers (items_sort limit) tokens.now result }
{
    read_module(alloc, tokens, limit)
}

/// The module or signature at the front of the terminals.
fn read_items<'a>(
    alloc: Global,
    tokens: &'a [Terminal],
    limit: Option<usize>,
) -> Result<Read<'a, Module>, Fault>
    ensures { Answers (items_sort limit) tokens.now result }
{
    match after_signature(tokens) {
        Some(_) => read_signature_item(alloc, tokens, limit),
        None => read_module_item(alloc, tokens, limit),
    }
}

impl Readable for SourceItems {
    type Tree = Module;

    ghost sort = { items_sort };

    fn read<'a>(
        alloc: Global,
        tokens: &'a [Terminal],
        limit: Option<usize>,
    ) -> Result<Read<'a, Module>, Fault>
        ensures { Answers (items_sort limit) tokens.now result }
    {
        read_items(alloc, tokens, limit)
    }
}

impl Unambiguous for Modules {
    ghost unique = { one_module_within };
}

impl Unambiguous for Signatures {
    ghost unique = { one_signature_within };
}

impl Unambiguous for SourceItems {
    ghost unique = { one_items_within };
}

/// The module that all the tokens spell (Haskell 2010 Report, section 5.1): what stands in a `.hs` file.
///
/// A refusal has the index of the first token with which the tokens begin no module of a depth up to 200, or their number
/// where each of them can stand there and more are needed. It is `DepthLimit` where they begin a deeper module.
pub fn parse_module(alloc: Global, tokens: &Tokens) -> Result<Module, ParseError>
    ensures answer { IsParsed (module_form (Some 200)) (module_form None) (map terminal_of tokens.now) result }
{
    parse::<Modules>(alloc, tokens)
}

/// The signature that all the tokens spell (Yang 2017, "Backpack: Towards Practical Mix-in Linking for Haskell"): what
/// stands in a `.hsig` file.
///
/// A refusal has the index of the first token with which the tokens begin no signature of a depth up to 200, or their
/// number where each of them can stand there and more are needed. It is `DepthLimit` where they begin a deeper signature.
pub fn parse_signature(alloc: Global, tokens: &Tokens) -> Result<Module, ParseError>
    ensures answer { IsParsed (sig_form (Some 200)) (sig_form None) (map terminal_of tokens.now) result }
{
    parse::<Signatures>(alloc, tokens)
}

/// The module or signature that all the tokens spell.
///
/// A refusal has the index of the first token with which the tokens begin neither of a depth up to 200, or their number
/// where each of them can stand there and more are needed. It is `DepthLimit` where they begin a deeper one.
pub fn parse_items(alloc: Global, tokens: &Tokens) -> Result<Module, ParseError>
    ensures answer { IsParsed (items_form (Some 200)) (items_form None) (map terminal_of tokens.now) result }
{
    parse::<SourceItems>(alloc, tokens)
}

/// No two modules have one spelling, whatever their depth.
pub fn one_module()
    ensures { (tokens : List Terminal) (one other : Module) → Spells (module_form None) one tokens → Spells (module_form None) other tokens → other ≡ one }
{}

/// No two signatures have one spelling, whatever their depth.
pub fn one_signature()
    ensures { (tokens : List Terminal) (one other : Module) → Spells (sig_form None) one tokens → Spells (sig_form None) other tokens → other ≡ one }
{}

/// No two modules or signatures have one spelling, whatever their depth.
pub fn one_item()
    ensures { (tokens : List Terminal) (one other : Module) → Spells (items_form None) one tokens → Spells (items_form None) other tokens → other ≡ one }
{}
