//! Equality of resolved trees. None of it takes memory.
ghost use Rattle.std.specs.Prelude.{◌≡◌, ◌↔◌, IsTrue};

use crate::{Alt, Body, Checked, Choice, ConDecl, Decl, Exp, FieldDecl, Guard, Pat, Rhs, Written};
use bp_base::{Export, Interface, same_export, same_ident, same_names, same_orig_name};

/// Whether two written types are the same.
pub fn same_written(a: &Written, b: &Written) -> bool
    ensures { IsTrue result ↔ (a.now ≡ b.now) }
{
    match (a, b) {
        (Written::WVar { name: m }, Written::WVar { name: n }) => *m == *n,
        (Written::WCon { name: m }, Written::WCon { name: n }) => same_orig_name(m, n),
        (Written::WApp { fun: f, arg: x }, Written::WApp { fun: g, arg: y }) => {
            same_written(f.get(), g.get()) && same_written(x.get(), y.get())
        }
        _ => false,
    }
}

/// Whether two fields are equal.
pub fn same_field_decl(a: &FieldDecl, b: &FieldDecl) -> bool
    ensures { IsTrue result ↔ (a.now ≡ b.now) }
{
    a.strict == b.strict && same_written(&a.ty, &b.ty)
}

fn same_field_decls(a: &[FieldDecl], b: &[FieldDecl]) -> bool
    ensures { IsTrue result ↔ (a.now ≡ b.now) }
{
    if a.len() != b.len() {
        return false;
    }
    for i in 0..a.len() {
        if !same_field_decl(&a[i], &b[i]) {
            return false;
        }
    }
    true
}

/// Whether two constructors are equal.
pub fn same_con_decl(a: &ConDecl, b: &ConDecl) -> bool
    ensures { IsTrue result ↔ (a.now ≡ b.now) }
{
    a.occ == b.occ && same_field_decls(a.fields.as_slice(), b.fields.as_slice())
}

fn same_con_decls(a: &[ConDecl], b: &[ConDecl]) -> bool
    ensures { IsTrue result ↔ (a.now ≡ b.now) }
{
    if a.len() != b.len() {
        return false;
    }
    for i in 0..a.len() {
        if !same_con_decl(&a[i], &b[i]) {
            return false;
        }
    }
    true
}

/// Whether two patterns are the same.
#[cycle(pat)]
pub fn same_pat(a: &Pat, b: &Pat) -> bool
    ensures { IsTrue result ↔ (a.now ≡ b.now) }
{
    match (a, b) {
        (Pat::PVar { name: m }, Pat::PVar { name: n }) => *m == *n,
        (Pat::PWild, Pat::PWild) => true,
        (
            Pat::PInt {
                negative: x,
                value: i,
            },
            Pat::PInt {
                negative: y,
                value: j,
            },
        ) => *x == *y && *i == *j,
        (Pat::PChr { code: x }, Pat::PChr { code: y }) => *x == *y,
        (Pat::PStr { codes: x }, Pat::PStr { codes: y }) => x.as_slice() == y.as_slice(),
        (Pat::PCon { name: m, args: x }, Pat::PCon { name: n, args: y }) => {
            same_orig_name(m, n) && same_pats(x.as_slice(), y.as_slice())
        }
        (Pat::PTuple { parts: x }, Pat::PTuple { parts: y }) => {
            same_pats(x.as_slice(), y.as_slice())
        }
        (Pat::PList { parts: x }, Pat::PList { parts: y }) => {
            same_pats(x.as_slice(), y.as_slice())
        }
        (Pat::PAs { name: m, pat: x }, Pat::PAs { name: n, pat: y }) => {
            *m == *n && same_pat(x.get(), y.get())
        }
        (Pat::PLazy { pat: x }, Pat::PLazy { pat: y }) => same_pat(x.get(), y.get()),
        _ => false,
    }
}

#[cycle(pat)]
fn same_pats(a: &[Pat], b: &[Pat]) -> bool
    ensures { IsTrue result ↔ (a.now ≡ b.now) }
{
    if a.len() != b.len() {
        return false;
    }
    for i in 0..a.len() {
        if !same_pat(&a[i], &b[i]) {
            return false;
        }
    }
    true
}

/// Whether two expressions are the same.
#[cycle(exp)]
pub fn same_exp(a: &Exp, b: &Exp) -> bool
    ensures { IsTrue result ↔ (a.now ≡ b.now) }
{
    match (a, b) {
        (Exp::Local { name: m }, Exp::Local { name: n }) => *m == *n,
        (Exp::Global { name: m }, Exp::Global { name: n }) => same_orig_name(m, n),
        (Exp::Int { value: x }, Exp::Int { value: y }) => *x == *y,
        (Exp::Chr { code: x }, Exp::Chr { code: y }) => *x == *y,
        (Exp::Str { codes: x }, Exp::Str { codes: y }) => x.as_slice() == y.as_slice(),
        (Exp::Apply { fun: f, args: x }, Exp::Apply { fun: g, args: y }) => {
            same_exp(f.get(), g.get()) && same_exps(x.as_slice(), y.as_slice())
        }
        (Exp::Lambda { pats: x, body: d }, Exp::Lambda { pats: y, body: e }) => {
            same_exp(d.get(), e.get()) && same_pats(x.as_slice(), y.as_slice())
        }
        (Exp::Let { decls: x, body: d }, Exp::Let { decls: y, body: e }) => {
            same_exp(d.get(), e.get()) && same_decls(x.as_slice(), y.as_slice())
        }
        (
            Exp::If {
                test: c,
                yes: x,
                no: p,
            },
            Exp::If {
                test: d,
                yes: y,
                no: q,
            },
        ) => {
            same_exp(c.get(), d.get()) && same_exp(x.get(), y.get()) && same_exp(p.get(), q.get())
        }
        (Exp::Case { of: d, alts: x }, Exp::Case { of: e, alts: y }) => {
            same_exp(d.get(), e.get()) && same_alts(x.as_slice(), y.as_slice())
        }
        (Exp::Tuple { parts: x }, Exp::Tuple { parts: y }) => {
            same_exps(x.as_slice(), y.as_slice())
        }
        (Exp::List { parts: x }, Exp::List { parts: y }) => {
            same_exps(x.as_slice(), y.as_slice())
        }
        (Exp::RightSection { op: o, arg: x }, Exp::RightSection { op: p, arg: y }) => {
            same_exp(o.get(), p.get()) && same_exp(x.get(), y.get())
        }
        (Exp::Annot { exp: d, ty: s }, Exp::Annot { exp: e, ty: t }) => {
            same_exp(d.get(), e.get()) && same_written(s, t)
        }
        _ => false,
    }
}

#[cycle(exp)]
fn same_exps(a: &[Exp], b: &[Exp]) -> bool
    ensures { IsTrue result ↔ (a.now ≡ b.now) }
{
    if a.len() != b.len() {
        return false;
    }
    for i in 0..a.len() {
        if !same_exp(&a[i], &b[i]) {
            return false;
        }
    }
    true
}

/// Whether two declarations are the same.
#[cycle(exp)]
pub fn same_decl(a: &Decl, b: &Decl) -> bool
    ensures { IsTrue result ↔ (a.now ≡ b.now) }
{
    match (a, b) {
        (
            Decl::DataDecl {
                occ: m,
                is_new: v,
                params: p,
                cons: c,
            },
            Decl::DataDecl {
                occ: n,
                is_new: w,
                params: q,
                cons: d,
            },
        ) => {
            *m == *n
                && *v == *w
                && same_names(p.as_slice(), q.as_slice())
                && same_con_decls(c.as_slice(), d.as_slice())
        }
        (
            Decl::SynonymDecl {
                occ: m,
                params: p,
                body: s,
            },
            Decl::SynonymDecl {
                occ: n,
                params: q,
                body: t,
            },
        ) => *m == *n && same_names(p.as_slice(), q.as_slice()) && same_written(s, t),
        (Decl::TypeSig { occ: m, ty: s }, Decl::TypeSig { occ: n, ty: t }) => {
            *m == *n && same_written(s, t)
        }
        (Decl::FixityOf { occ: m, fixity: x }, Decl::FixityOf { occ: n, fixity: y }) => {
            *m == *n && *x == *y
        }
        (
            Decl::Clause {
                occ: m,
                pats: p,
                rhs: x,
            },
            Decl::Clause {
                occ: n,
                pats: q,
                rhs: y,
            },
        ) => *m == *n && same_pats(p.as_slice(), q.as_slice()) && same_rhs(x, y),
        (Decl::PatBind { pat: p, rhs: x }, Decl::PatBind { pat: q, rhs: y }) => {
            same_pat(p, q) && same_rhs(x, y)
        }
        _ => false,
    }
}

#[cycle(exp)]
fn same_decls(a: &[Decl], b: &[Decl]) -> bool
    ensures { IsTrue result ↔ (a.now ≡ b.now) }
{
    if a.len() != b.len() {
        return false;
    }
    for i in 0..a.len() {
        if !same_decl(&a[i], &b[i]) {
            return false;
        }
    }
    true
}

/// Whether two right sides are the same.
#[cycle(exp)]
pub fn same_rhs(a: &Rhs, b: &Rhs) -> bool
    ensures { IsTrue result ↔ (a.now ≡ b.now) }
{
    same_choices(a.choices.as_slice(), b.choices.as_slice())
        && same_decls(a.local.as_slice(), b.local.as_slice())
}

/// Whether two choices are the same.
#[cycle(exp)]
pub fn same_choice(a: &Choice, b: &Choice) -> bool
    ensures { IsTrue result ↔ (a.now ≡ b.now) }
{
    same_guards(a.guards.as_slice(), b.guards.as_slice()) && same_exp(&a.exp, &b.exp)
}

#[cycle(exp)]
fn same_choices(a: &[Choice], b: &[Choice]) -> bool
    ensures { IsTrue result ↔ (a.now ≡ b.now) }
{
    if a.len() != b.len() {
        return false;
    }
    for i in 0..a.len() {
        if !same_choice(&a[i], &b[i]) {
            return false;
        }
    }
    true
}

/// Whether two guards are the same.
#[cycle(exp)]
pub fn same_guard(a: &Guard, b: &Guard) -> bool
    ensures { IsTrue result ↔ (a.now ≡ b.now) }
{
    match (a, b) {
        (Guard::Test { exp: d }, Guard::Test { exp: e }) => same_exp(d, e),
        (Guard::Bind { pat: p, exp: d }, Guard::Bind { pat: q, exp: e }) => {
            same_pat(p, q) && same_exp(d, e)
        }
        _ => false,
    }
}

#[cycle(exp)]
fn same_guards(a: &[Guard], b: &[Guard]) -> bool
    ensures { IsTrue result ↔ (a.now ≡ b.now) }
{
    if a.len() != b.len() {
        return false;
    }
    for i in 0..a.len() {
        if !same_guard(&a[i], &b[i]) {
            return false;
        }
    }
    true
}

/// Whether two alternatives are the same.
#[cycle(exp)]
pub fn same_alt(a: &Alt, b: &Alt) -> bool
    ensures { IsTrue result ↔ (a.now ≡ b.now) }
{
    same_pat(&a.pat, &b.pat) && same_rhs(&a.rhs, &b.rhs)
}

#[cycle(exp)]
fn same_alts(a: &[Alt], b: &[Alt]) -> bool
    ensures { IsTrue result ↔ (a.now ≡ b.now) }
{
    if a.len() != b.len() {
        return false;
    }
    for i in 0..a.len() {
        if !same_alt(&a[i], &b[i]) {
            return false;
        }
    }
    true
}

/// Whether the declarations of two modules are the same.
pub fn same_body(a: &Body, b: &Body) -> bool
    ensures { IsTrue result ↔ (a.now ≡ b.now) }
{
    same_decls(a.decls.as_slice(), b.decls.as_slice())
}

fn same_exports(a: &[Export], b: &[Export]) -> bool
    ensures { IsTrue result ↔ (a.now ≡ b.now) }
{
    if a.len() != b.len() {
        return false;
    }
    for i in 0..a.len() {
        if !same_export(&a[i], &b[i]) {
            return false;
        }
    }
    true
}

fn same_interface(a: &Interface, b: &Interface) -> bool
    ensures { IsTrue result ↔ (a.now ≡ b.now) }
{
    same_ident(&a.module, &b.module) && same_exports(a.exports.as_slice(), b.exports.as_slice())
}

/// Whether two checked modules are the same.
pub fn same_checked(a: &Checked, b: &Checked) -> bool
    ensures { IsTrue result ↔ (a.now ≡ b.now) }
{
    same_interface(&a.interface, &b.interface) && same_body(&a.body, &b.body)
}
