//! Names as they stand in surface trees.
ghost use Rattle.std.specs.Prelude.{◌≡◌};
ghost use Rattle.hs_scopes.specs.Words.{var_name, con_name};
ghost use Rattle.import_resolve.specs.ImportLists.{sub_name};

use bp_base::Name;
use hs_modules::{CNameTree, ConTree};
use hs_trees::VarTree;

/// The name of a variable.
pub fn var_name(var: &VarTree) -> &Name
    ensures { result.now ≡ var_name var.now }
{
    match var {
        VarTree::Id(name) => name,
        VarTree::Sym(name) => name,
    }
}

/// The name of a constructor.
pub fn con_name(con: &ConTree) -> &Name
    ensures { result.now ≡ con_name con.now }
{
    match con {
        ConTree::Id(name) => name,
        ConTree::Sym(name) => name,
    }
}

/// The name of what is listed with a type.
pub fn sub_name(name: &CNameTree) -> &Name
    ensures { result.now ≡ sub_name name.now }
{
    match name {
        CNameTree::Var(var) => var_name(var),
        CNameTree::Con(con) => con_name(con),
    }
}
