//! Groups in order, each over the names outside and those of the groups before it.
ghost use Rattle.std.specs.Prelude.{◌≡◌, ◌↔◌, IfOk, IfErr, map, length};
ghost use Rattle.bp_base.specs.declared.ty.OrigName.{OrigName};
ghost use Rattle.hs_core.specs.Types.{KindTerm, kind_term};
ghost use Rattle.hs_core.specs.Kinds.{within_group};
ghost use Rattle.kind_check.specs.Scopes.{decls_of, known_names};
ghost use Rattle.kind_check.specs.Answers.{IsGroupError};
ghost use Rattle.kind_order.specs.Orders.{IsNamed, Follows, Kinded, IsOrderError};

use bp_base::Kind;
use kind_check::{
    GroupDecl, GroupError, KindEnv, Kinds, Known, Knowns, Sense, TypeGroup, kinds_of,
};
use sqlite_items::Items;
use std::alloc::{AllocError, Global};

/// The kinds of a group's declarations, in their order.
#[derive(Debug, Drop)]
pub struct GroupKinds {
    pub kinds: Kinds,
}

/// The kinds of groups, in their order.
pub type GroupKindsList = Items<GroupKinds>;

// The declarations' names with their kinds.
fn named(alloc: Global, decls: &[GroupDecl], kinds: &[Kind]) -> Result<Knowns, AllocError>
    requires { length kinds.now ≡ length decls.now }
    ensures { IfOk result (λ names. IsNamed decls.now kinds.now names) }
{
    let mut names = Items::new(alloc);
    for index in 0..decls.len() {
        names.push(Known {
            name: decls[index].name.copied(alloc)?,
            sense: Sense::TypeOf {
                kind: kinds[index].copied(alloc)?,
            },
        })?;
    }
    Ok(names)
}

// The names with those of a group in front.
fn in_front(
    alloc: Global,
    group: &TypeGroup,
    kinds: &Kinds,
    env: KindEnv,
) -> Result<KindEnv, AllocError>
    requires { length kinds.now ≡ length group.now.decls }
    ensures { IfOk result (λ e. (n : OrigName) (k : KindTerm) → known_names e.names n k ↔ within_group (known_names env.names) (decls_of group.now.decls) (map kind_term kinds.now) n k) }
{
    let KindEnv { names: outer } = env;
    let mut names = named(alloc, group.decls.as_slice(), kinds.as_slice())?;
    names.append(outer)?;
    Ok(KindEnv { names })
}

// The kinds of the next group join those so far, and its names stand in front.
fn next_group(
    alloc: Global,
    group: &TypeGroup,
    env: KindEnv,
    all: &mut GroupKindsList,
) -> Result<KindEnv, GroupError>
    ensures ok { IfOk result (λ e. Follows (known_names env.names) group.now e all.old all.new) }
    ensures err { IfErr result (λ e. IsGroupError (known_names env.names) group.now.decls e) }
{
    match kinds_of(alloc, group, &env) {
        Ok(kinds) => {
            let more = in_front(alloc, group, &kinds, env)?;
            all.push(GroupKinds { kinds })?;
            Ok(more)
        }
        Err(error) => Err(error),
    }
}

/// The kinds of groups in an order in which each stands behind those that it uses. Kind names the first declaration of the first
/// group that has none, where those before it have theirs.
pub fn kinds_in_order(
    alloc: Global,
    groups: &[TypeGroup],
    env: KindEnv,
) -> Result<GroupKindsList, GroupError>
    ensures ok { IfOk result (λ all. Kinded (known_names env.names) groups.now all) }
    ensures err { IfErr result (λ e. IsOrderError (known_names env.names) groups.now e) }
{
    let mut all = Items::new(alloc);
    let mut names = env;
    for index in 0..groups.len() {
        match next_group(alloc, &groups[index], names, &mut all) {
            Ok(more) => names = more,
            Err(error) => return Err(error),
        }
    }
    Ok(all)
}
