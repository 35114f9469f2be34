//! The measures of modules and signatures.
ghost use Rattle.std.specs.Prelude.{◌≡◌, min};
ghost use Rattle.hs_modules.specs.Measures.{all_measured, most};
ghost use Rattle.hs_modules.specs.Measured.{measure_of_constr, measure_of_export, measure_of_exports, measure_of_field, measure_of_import, measure_of_import_list, measure_of_item, measure_of_module, measure_of_side, measure_of_sig_block, measure_of_sig_decl, measure_of_sig_slot, measure_of_subs, measure_of_top_block, measure_of_top_decl, measure_of_top_slot};
ghost use Rattle.hs_modules.specs.Modules.{depth_of_module, size_of_module};

use crate::declarations::{
    ConstrSide, ConstrTree, Field, SigBlock, SigDeclTree, SigSlot, TopBlock, TopDeclTree, TopSlot,
};
use crate::measure::Measure;
use crate::measure_expressions::measure_decl;
use crate::measure_types::{measure_atype, measure_btype, measure_kind, measure_type};
use crate::module::{ExportTree, ExportsTree, ImpDeclTree, ImportList, ItemTree, Module, SubsTree};

/// How many nodes the trees of a module or signature have, one for each production of the grammar; each part of a chain of kinds
/// is a `kind`. The greatest u64 if there are more. It takes no memory.
#[tactic(auto, unfolding(crate::specs::Measured::measure_of_module, crate::specs::Measures::measured, crate::specs::Measures::capped))]
pub fn size(module: &Module) -> u64
    ensures { result ≡ min (size_of_module «module».now) most }
{
    measure_module(module).size
}

/// How deep the trees of a module or signature are; the greatest u64 if they are deeper. It takes no memory.
#[tactic(auto, unfolding(crate::specs::Measured::measure_of_module, crate::specs::Measures::measured, crate::specs::Measures::capped))]
pub fn depth(module: &Module) -> u64
    ensures { result ≡ min (depth_of_module «module».now) most }
{
    measure_module(module).depth
}

#[tactic(auto, using(crate::proofs::ModuleMeasureLemmas::module_equations))]
fn measure_module(tree: &Module) -> Measure
    ensures { result ≡ measure_of_module tree.now }
{
    match tree {
        Module::Headless(block) => measure_top_block(block).node(),
        Module::Named(_, block) => measure_top_block(block).node(),
        Module::Exporting(_, exports, block) => measure_exports(exports)
            .beside(measure_top_block(block))
            .node(),
        Module::Signature(_, block) => measure_sig_block(block).node(),
    }
}

#[tactic(auto, using(crate::proofs::ModuleMeasureLemmas::module_equations))]
fn measure_exports(tree: &ExportsTree) -> Measure
    ensures { result ≡ measure_of_exports tree.now }
{
    measure_export_list(tree.exports.as_slice()).node()
}

#[tactic(auto, using(crate::proofs::MeasuringLemmas::loop_equations))]
fn measure_export_list(trees: &[ExportTree]) -> Measure
    ensures { result ≡ all_measured measure_of_export trees.now }
{
    let mut total = Measure::nothing();
    for each in trees {
        total = total.beside(measure_export(each));
    }
    total
}

#[tactic(auto, using(crate::proofs::ModuleMeasureLemmas::module_equations))]
fn measure_export(tree: &ExportTree) -> Measure
    ensures { result ≡ measure_of_export tree.now }
{
    match tree {
        ExportTree::Var(_) => Measure::leaf(),
        ExportTree::Type(_) => Measure::leaf(),
        ExportTree::TypeWith(_, subs) => measure_subs(subs).node(),
        ExportTree::Module(_) => Measure::leaf(),
    }
}

#[tactic(auto, using(crate::proofs::ModuleMeasureLemmas::module_equations))]
fn measure_subs(tree: &SubsTree) -> Measure
    ensures { result ≡ measure_of_subs tree.now }
{
    match tree {
        SubsTree::All => Measure::leaf(),
        SubsTree::Only(names) => Measure::leaf().with(names.len()),
    }
}

#[tactic(auto, using(crate::proofs::ModuleMeasureLemmas::module_equations))]
fn measure_import(tree: &ImpDeclTree) -> Measure
    ensures { result ≡ measure_of_import tree.now }
{
    measure_import_list(&tree.list).node()
}

#[tactic(auto, using(crate::proofs::ModuleMeasureLemmas::module_equations))]
fn measure_import_list(tree: &ImportList) -> Measure
    ensures { result ≡ measure_of_import_list tree.now }
{
    match tree {
        ImportList::Everything => Measure::nothing(),
        ImportList::Only(items, _) => measure_items(items.as_slice()),
        ImportList::Hiding(items, _) => measure_items(items.as_slice()),
    }
}

#[tactic(auto, using(crate::proofs::MeasuringLemmas::loop_equations))]
fn measure_items(trees: &[ItemTree]) -> Measure
    ensures { result ≡ all_measured measure_of_item trees.now }
{
    let mut total = Measure::nothing();
    for each in trees {
        total = total.beside(measure_item(each));
    }
    total
}

#[tactic(auto, using(crate::proofs::ModuleMeasureLemmas::module_equations))]
fn measure_item(tree: &ItemTree) -> Measure
    ensures { result ≡ measure_of_item tree.now }
{
    match tree {
        ItemTree::Var(_) => Measure::leaf(),
        ItemTree::Type(_) => Measure::leaf(),
        ItemTree::TypeWith(_, subs) => measure_subs(subs).node(),
    }
}

#[tactic(auto, using(crate::proofs::ModuleMeasureLemmas::module_equations))]
fn measure_top_block(tree: &TopBlock) -> Measure
    ensures { result ≡ measure_of_top_block tree.now }
{
    measure_top_slot(&tree.first).beside(measure_top_slots(tree.rest.as_slice()))
}

#[tactic(auto, using(crate::proofs::MeasuringLemmas::loop_equations))]
fn measure_top_slots(trees: &[TopSlot]) -> Measure
    ensures { result ≡ all_measured measure_of_top_slot trees.now }
{
    let mut total = Measure::nothing();
    for each in trees {
        total = total.beside(measure_top_slot(each));
    }
    total
}

#[tactic(auto, using(crate::proofs::ModuleMeasureLemmas::module_equations))]
fn measure_top_slot(tree: &TopSlot) -> Measure
    ensures { result ≡ measure_of_top_slot tree.now }
{
    match tree {
        TopSlot::Empty => Measure::nothing(),
        TopSlot::Import(import) => measure_import(import),
        TopSlot::Decl(decl) => measure_top_decl(decl),
    }
}

#[tactic(auto, using(crate::proofs::ModuleMeasureLemmas::module_equations))]
fn measure_sig_block(tree: &SigBlock) -> Measure
    ensures { result ≡ measure_of_sig_block tree.now }
{
    measure_sig_slot(&tree.first).beside(measure_sig_slots(tree.rest.as_slice()))
}

#[tactic(auto, using(crate::proofs::MeasuringLemmas::loop_equations))]
fn measure_sig_slots(trees: &[SigSlot]) -> Measure
    ensures { result ≡ all_measured measure_of_sig_slot trees.now }
{
    let mut total = Measure::nothing();
    for each in trees {
        total = total.beside(measure_sig_slot(each));
    }
    total
}

#[tactic(auto, using(crate::proofs::ModuleMeasureLemmas::module_equations))]
fn measure_sig_slot(tree: &SigSlot) -> Measure
    ensures { result ≡ measure_of_sig_slot tree.now }
{
    match tree {
        SigSlot::Empty => Measure::nothing(),
        SigSlot::Import(import) => measure_import(import),
        SigSlot::Decl(decl) => measure_sig_decl(decl),
    }
}

#[tactic(auto, using(crate::proofs::ModuleMeasureLemmas::module_equations))]
fn measure_sig_decl(tree: &SigDeclTree) -> Measure
    ensures { result ≡ measure_of_sig_decl tree.now }
{
    match tree {
        SigDeclTree::Top(decl) => measure_top_decl(decl).node(),
        SigDeclTree::Kinded(_, kind) => measure_kind(kind).node(),
    }
}

#[tactic(auto, using(crate::proofs::ModuleMeasureLemmas::module_equations))]
fn measure_top_decl(tree: &TopDeclTree) -> Measure
    ensures { result ≡ measure_of_top_decl tree.now }
{
    match tree {
        TopDeclTree::EmptyData(_, _) => Measure::leaf(),
        TopDeclTree::Data(_, _, first, rest) => measure_constr(first)
            .beside(measure_constrs(rest.as_slice()))
            .node(),
        TopDeclTree::Newtype(_, _, _, atype) => measure_atype(atype).node(),
        TopDeclTree::Synonym(_, _, ty) => measure_type(ty).node(),
        TopDeclTree::Decl(decl) => measure_decl(decl).node(),
    }
}

#[tactic(auto, using(crate::proofs::MeasuringLemmas::loop_equations))]
fn measure_constrs(trees: &[ConstrTree]) -> Measure
    ensures { result ≡ all_measured measure_of_constr trees.now }
{
    let mut total = Measure::nothing();
    for each in trees {
        total = total.beside(measure_constr(each));
    }
    total
}

#[tactic(auto, using(crate::proofs::ModuleMeasureLemmas::module_equations))]
fn measure_constr(tree: &ConstrTree) -> Measure
    ensures { result ≡ measure_of_constr tree.now }
{
    match tree {
        ConstrTree::Prefix(_, fields) => measure_fields(fields.as_slice()).node(),
        ConstrTree::Infix(left, _, right) => measure_side(left).beside(measure_side(right)).node(),
    }
}

#[tactic(auto, using(crate::proofs::MeasuringLemmas::loop_equations))]
fn measure_fields(trees: &[Field]) -> Measure
    ensures { result ≡ all_measured measure_of_field trees.now }
{
    let mut total = Measure::nothing();
    for each in trees {
        total = total.beside(measure_field(each));
    }
    total
}

#[tactic(auto, using(crate::proofs::ModuleMeasureLemmas::module_equations))]
fn measure_field(tree: &Field) -> Measure
    ensures { result ≡ measure_of_field tree.now }
{
    measure_atype(&tree.atype)
}

#[tactic(auto, using(crate::proofs::ModuleMeasureLemmas::module_equations))]
fn measure_side(tree: &ConstrSide) -> Measure
    ensures { result ≡ measure_of_side tree.now }
{
    match tree {
        ConstrSide::Lazy(btype) => measure_btype(btype),
        ConstrSide::Strict(atype) => measure_atype(atype),
    }
}
