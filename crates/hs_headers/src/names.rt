//! Names, and the names behind a type (Haskell 2010 Report, sections 3.2 and 5.2).
ghost use Rattle.std.specs.Prelude.{◌≡◌, ◌∷◌};
ghost use Rattle.hs_tokens.specs.declared.terminal.Terminal.TheVariants.{LeftParen};
ghost use Rattle.hs_readers.specs.Answers.{Answers};
ghost use Rattle.hs_headers.specs.Names.{var_sort, qvar_sort, cname_sort};

use crate::leaf::{
    after_own_con, after_own_con_sym, after_qvar, after_qvar_sym, after_var, after_var_sym,
};
use bp_base::Name;
use hs_forms::Fault;
use hs_modules::{CNameTree, ConTree, QVarTree};
use hs_readers::{Read, after_left_paren, after_right_paren};
use hs_tokens::Terminal;
use hs_trees::VarTree;
use std::alloc::Global;

/// `var`: a variable, or a symbol in brackets.
pub fn read_var(alloc: Global, tokens: &[Terminal]) -> Result<Read<'_, VarTree>, Fault>
    ensures { Answers var_sort tokens.now result }
{
    if let Some((name, rest)) = after_var(tokens) {
        let tree = VarTree::Id(Name::from_bytes(alloc, name.as_bytes())?);
        return Ok(Read {
            tree,
            rest,
            depth: 0,
        });
    }
    let Some(next) = after_left_paren(tokens) else {
        return Err(Fault::At(tokens.len()));
    };
    read_var_symbol(alloc, next)
}

/// A symbol in brackets, behind its `(`.
fn read_var_symbol(alloc: Global, tokens: &[Terminal]) -> Result<Read<'_, VarTree>, Fault>
    ensures { Answers var_sort (LeftParen ∷ tokens.now) result }
{
    let Some((name, next)) = after_var_sym(tokens) else {
        return Err(Fault::At(tokens.len()));
    };
    let Some(rest) = after_right_paren(next) else {
        return Err(Fault::At(next.len()));
    };
    let tree = VarTree::Sym(Name::from_bytes(alloc, name.as_bytes())?);
    Ok(Read {
        tree,
        rest,
        depth: 0,
    })
}

/// `qvar`: a variable or a symbol in brackets, qualified or not.
pub fn read_qvar(alloc: Global, tokens: &[Terminal]) -> Result<Read<'_, QVarTree>, Fault>
    ensures { Answers qvar_sort tokens.now result }
{
    if let Some((name, rest)) = after_var(tokens) {
        let tree = QVarTree::Id(Name::from_bytes(alloc, name.as_bytes())?);
        return Ok(Read {
            tree,
            rest,
            depth: 0,
        });
    }
    if let Some((name, rest)) = after_qvar(tokens) {
        let tree = QVarTree::QualifiedId(Name::from_bytes(alloc, name.as_bytes())?);
        return Ok(Read {
            tree,
            rest,
            depth: 0,
        });
    }
    let Some(next) = after_left_paren(tokens) else {
        return Err(Fault::At(tokens.len()));
    };
    read_qvar_symbol(alloc, next)
}

/// A symbol in brackets, qualified or not, behind its `(`.
fn read_qvar_symbol(alloc: Global, tokens: &[Terminal]) -> Result<Read<'_, QVarTree>, Fault>
    ensures { Answers qvar_sort (LeftParen ∷ tokens.now) result }
{
    if let Some((name, next)) = after_var_sym(tokens) {
        let Some(rest) = after_right_paren(next) else {
            return Err(Fault::At(next.len()));
        };
        let tree = QVarTree::Sym(Name::from_bytes(alloc, name.as_bytes())?);
        return Ok(Read {
            tree,
            rest,
            depth: 0,
        });
    }
    let Some((name, next)) = after_qvar_sym(tokens) else {
        return Err(Fault::At(tokens.len()));
    };
    let Some(rest) = after_right_paren(next) else {
        return Err(Fault::At(next.len()));
    };
    let tree = QVarTree::QualifiedSym(Name::from_bytes(alloc, name.as_bytes())?);
    Ok(Read {
        tree,
        rest,
        depth: 0,
    })
}

/// `cname`: a variable, or a constructor that is not qualified.
pub fn read_cname(alloc: Global, tokens: &[Terminal]) -> Result<Read<'_, CNameTree>, Fault>
    ensures { Answers cname_sort tokens.now result }
{
    if let Some((name, rest)) = after_var(tokens) {
        let tree = CNameTree::Var(VarTree::Id(Name::from_bytes(alloc, name.as_bytes())?));
        return Ok(Read {
            tree,
            rest,
            depth: 0,
        });
    }
    if let Some((name, rest)) = after_own_con(tokens) {
        let tree = CNameTree::Con(ConTree::Id(Name::from_bytes(alloc, name.as_bytes())?));
        return Ok(Read {
            tree,
            rest,
            depth: 0,
        });
    }
    let Some(next) = after_left_paren(tokens) else {
        return Err(Fault::At(tokens.len()));
    };
    read_cname_symbol(alloc, next)
}

/// A symbol in brackets, behind its `(`.
fn read_cname_symbol(alloc: Global, tokens: &[Terminal]) -> Result<Read<'_, CNameTree>, Fault>
    ensures { Answers cname_sort (LeftParen ∷ tokens.now) result }
{
    if let Some((name, next)) = after_var_sym(tokens) {
        let Some(rest) = after_right_paren(next) else {
            return Err(Fault::At(next.len()));
        };
        let tree = CNameTree::Var(VarTree::Sym(Name::from_bytes(alloc, name.as_bytes())?));
        return Ok(Read {
            tree,
            rest,
            depth: 0,
        });
    }
    let Some((name, next)) = after_own_con_sym(tokens) else {
        return Err(Fault::At(tokens.len()));
    };
    let Some(rest) = after_right_paren(next) else {
        return Err(Fault::At(next.len()));
    };
    let tree = CNameTree::Con(ConTree::Sym(Name::from_bytes(alloc, name.as_bytes())?));
    Ok(Read {
        tree,
        rest,
        depth: 0,
    })
}
