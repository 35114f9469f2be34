//! Declarations of signatures (Yang 2017, "Backpack: Towards Practical Mix-in Linking for Haskell").
ghost use Rattle.std.specs.Prelude.{◌≡◌, IfOk, false, true};
ghost use Rattle.hs_forms.specs.Reading.{begins};
ghost use Rattle.hs_forms.specs.Answers.{Rejects};
ghost use Rattle.hs_readers.specs.Answers.{Answers};
ghost use Rattle.hs_declarations.specs.Declarations.{is_double_colon};
ghost use Rattle.hs_expression_forms.specs.Trees.{sort_of, within};
ghost use Rattle.hs_declaration_forms.specs.Datatypes.{starts_type_decl, type_decls};
ghost use Rattle.hs_signature_forms.specs.Signatures.{kinded_trees, sig_decls, sig_types};

use hs_datatypes::{begins_type_decl, read_type_decl};
use hs_declarations::{after_double_colon, read_kinded};
use hs_forms::Fault;
use hs_modules::{SigDeclTree, TopDeclTree};
use hs_readers::Read;
use hs_tokens::Terminal;
use hs_typings::read_plain_decl;
use std::alloc::Global;

/// The declaration of a type, up to what is no `::`.
fn read_declared<'a>(
    alloc: Global,
    tokens: &'a [Terminal],
    limit: Option<usize>,
) -> Result<Read<'a, TopDeclTree>, Fault>
    requires { begins starts_type_decl tokens.now ≡ true }
    ensures answers { Answers (sort_of type_decls limit) tokens.now result }
    ensures ends { IfOk result (λ r. begins is_double_colon r.rest.now ≡ false) }
{
    let declared = read_type_decl(alloc, tokens, limit)?;
    match after_double_colon(declared.rest) {
        Some(_) => Err(Fault::At(declared.rest.len())),
        None => Ok(declared),
    }
}

/// The declaration of a type, where none with a kind stands; that was refused with so many tokens left.
fn read_other<'a>(
    alloc: Global,
    tokens: &'a [Terminal],
    limit: Option<usize>,
    left: usize,
) -> Result<Read<'a, SigDeclTree>, Fault>
    requires starts { begins starts_type_decl tokens.now ≡ true }
    requires refused { Rejects (within kinded_trees limit) tokens.now left }
    ensures { Answers (sort_of sig_types limit) tokens.now result }
{
    match read_declared(alloc, tokens, limit) {
        Ok(declared) => Ok(Read {
            tree: SigDeclTree::Top(declared.tree),
            rest: declared.rest,
            depth: declared.depth,
        }),
        Err(Fault::NoMemory) => Err(Fault::NoMemory),
        Err(Fault::At(right)) => Err(Fault::At(left.min(right))),
    }
}

/// The declaration of a type, with a kind or not.
fn read_sig_type<'a>(
    alloc: Global,
    tokens: &'a [Terminal],
    limit: Option<usize>,
) -> Result<Read<'a, SigDeclTree>, Fault>
    requires { begins starts_type_decl tokens.now ≡ true }
    ensures { Answers (sort_of sig_types limit) tokens.now result }
{
    match read_kinded(alloc, tokens, limit) {
        Ok(kinded) => {
            let declared = kinded.tree;
            Ok(Read {
                tree: SigDeclTree::Kinded(declared.name, declared.kind),
                rest: kinded.rest,
                depth: kinded.depth,
            })
        }
        Err(Fault::NoMemory) => Err(Fault::NoMemory),
        Err(Fault::At(left)) => read_other(alloc, tokens, limit, left),
    }
}

/// `sigdecl`, up to the `;` or `}` behind it: what declares a type, alone or with its kind, or binds nothing.
pub fn read_sig_decl<'a>(
    alloc: Global,
    tokens: &'a [Terminal],
    limit: Option<usize>,
) -> Result<Read<'a, SigDeclTree>, Fault>
    ensures { Answers (sort_of sig_decls limit) tokens.now result }
{
    if begins_type_decl(tokens) {
        let declared = read_sig_type(alloc, tokens, limit)?;
        return Ok(Read {
            tree: declared.tree,
            rest: declared.rest,
            depth: declared.depth,
        });
    }
    let decl = read_plain_decl(alloc, tokens, limit)?;
    Ok(Read {
        tree: SigDeclTree::Top(TopDeclTree::Decl(decl.tree)),
        rest: decl.rest,
        depth: decl.depth,
    })
}
