//! Copies of resolved trees: a copy is what renaming by nothing makes.
ghost use Rattle.std.specs.Prelude.{◌≡◌, IfOk};
ghost use Rattle.hs_core.specs.RenameLaws.{nothing};

use crate::rename::{rename_con, rename_field, rename_pat, rename_written};
use crate::rename_tree::{
    rename_alt, rename_body, rename_choice, rename_decl, rename_decls, rename_exp, rename_guard,
    rename_rhs,
};
use crate::{
    Alt, Body, Checked, Choice, ConDecl, Decl, Decls, Exp, FieldDecl, Guard, Pat, Rhs, Written,
};
use bp_base::Renaming;
use sqlite_items::Items;
use std::alloc::{AllocError, Global};

/// The renaming that fills nothing and shows nothing.
fn no_renaming(alloc: Global) -> Renaming
    ensures { result ≡ nothing }
{
    Renaming {
        fills: Items::new(alloc),
        shown: Items::new(alloc),
    }
}

impl Written {
    /// The same written type once more.
    #[tactic(auto, using(crate::proofs::TreesNothingLemmas::sameness))]
    pub fn copied(&self, alloc: Global) -> Result<Written, AllocError>
        ensures { IfOk result (λ r. r ≡ self.now) }
    {
        let by = no_renaming(alloc);
        let copy = rename_written(alloc, self, &by)?;
        Ok(copy)
    }
}

impl FieldDecl {
    /// The same field once more.
    #[tactic(auto, using(crate::proofs::TreesNothingLemmas::sameness))]
    pub fn copied(&self, alloc: Global) -> Result<FieldDecl, AllocError>
        ensures { IfOk result (λ r. r ≡ self.now) }
    {
        let by = no_renaming(alloc);
        let copy = rename_field(alloc, self, &by)?;
        Ok(copy)
    }
}

impl ConDecl {
    /// The same constructor once more.
    #[tactic(auto, using(crate::proofs::TreesNothingLemmas::sameness))]
    pub fn copied(&self, alloc: Global) -> Result<ConDecl, AllocError>
        ensures { IfOk result (λ r. r ≡ self.now) }
    {
        let by = no_renaming(alloc);
        let copy = rename_con(alloc, self, &by)?;
        Ok(copy)
    }
}

impl Pat {
    /// The same pattern once more.
    #[tactic(auto, using(crate::proofs::TreesNothingLemmas::sameness))]
    pub fn copied(&self, alloc: Global) -> Result<Pat, AllocError>
        ensures { IfOk result (λ r. r ≡ self.now) }
    {
        let by = no_renaming(alloc);
        let copy = rename_pat(alloc, self, &by)?;
        Ok(copy)
    }
}

impl Exp {
    /// The same expression once more.
    #[tactic(auto, using(crate::proofs::TreesNothingLemmas::sameness))]
    pub fn copied(&self, alloc: Global) -> Result<Exp, AllocError>
        ensures { IfOk result (λ r. r ≡ self.now) }
    {
        let by = no_renaming(alloc);
        let copy = rename_exp(alloc, self, &by)?;
        Ok(copy)
    }
}

impl Decl {
    /// The same declaration once more.
    #[tactic(auto, using(crate::proofs::TreesNothingLemmas::sameness))]
    pub fn copied(&self, alloc: Global) -> Result<Decl, AllocError>
        ensures { IfOk result (λ r. r ≡ self.now) }
    {
        let by = no_renaming(alloc);
        let copy = rename_decl(alloc, self, &by)?;
        Ok(copy)
    }
}

impl Rhs {
    /// The same right side once more.
    #[tactic(auto, using(crate::proofs::TreesNothingLemmas::sameness))]
    pub fn copied(&self, alloc: Global) -> Result<Rhs, AllocError>
        ensures { IfOk result (λ r. r ≡ self.now) }
    {
        let by = no_renaming(alloc);
        let copy = rename_rhs(alloc, self, &by)?;
        Ok(copy)
    }
}

impl Choice {
    /// The same choice once more.
    #[tactic(auto, using(crate::proofs::TreesNothingLemmas::sameness))]
    pub fn copied(&self, alloc: Global) -> Result<Choice, AllocError>
        ensures { IfOk result (λ r. r ≡ self.now) }
    {
        let by = no_renaming(alloc);
        let copy = rename_choice(alloc, self, &by)?;
        Ok(copy)
    }
}

impl Guard {
    /// The same guard once more.
    #[tactic(auto, using(crate::proofs::TreesNothingLemmas::sameness))]
    pub fn copied(&self, alloc: Global) -> Result<Guard, AllocError>
        ensures { IfOk result (λ r. r ≡ self.now) }
    {
        let by = no_renaming(alloc);
        let copy = rename_guard(alloc, self, &by)?;
        Ok(copy)
    }
}

impl Alt {
    /// The same alternative once more.
    #[tactic(auto, using(crate::proofs::TreesNothingLemmas::sameness))]
    pub fn copied(&self, alloc: Global) -> Result<Alt, AllocError>
        ensures { IfOk result (λ r. r ≡ self.now) }
    {
        let by = no_renaming(alloc);
        let copy = rename_alt(alloc, self, &by)?;
        Ok(copy)
    }
}

impl Body {
    /// The same declarations once more.
    #[tactic(auto, using(crate::proofs::TreesNothingLemmas::sameness))]
    pub fn copied(&self, alloc: Global) -> Result<Body, AllocError>
        ensures { IfOk result (λ r. r ≡ self.now) }
    {
        let by = no_renaming(alloc);
        let copy = rename_body(alloc, self, &by)?;
        Ok(copy)
    }
}

impl Checked {
    /// The same checked module once more.
    pub fn copied(&self, alloc: Global) -> Result<Checked, AllocError>
        ensures { IfOk result (λ r. r ≡ self.now) }
    {
        Ok(Checked {
            interface: self.interface.copied(alloc)?,
            body: self.body.copied(alloc)?,
        })
    }
}

/// The same declarations once more.
#[tactic(auto, using(crate::proofs::TreesNothingLemmas::sameness))]
pub fn copied_decls(alloc: Global, decls: &Decls) -> Result<Decls, AllocError>
    ensures { IfOk result (λ r. r ≡ decls.now) }
{
    let by = no_renaming(alloc);
    let copy = rename_decls(alloc, decls, &by)?;
    Ok(copy)
}
