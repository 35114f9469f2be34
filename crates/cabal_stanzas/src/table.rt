//! The fields of components: their names, and what a component of each kind makes of them.
ghost use Rattle.std.specs.Prelude.{◌≡◌};
ghost use Rattle.cabal_stanzas.specs.Table.{component_field, use_of, field_number, is_field, all_fields};

/// The kinds of component.
#[derive(Clone, Copy, Debug)]
pub enum Kind {
    Library,
    Executable,
}

/// The fields that some component reads (Cabal manual, "library", "executables", "build information").
#[derive(Clone, Copy, Debug)]
pub enum ComponentField {
    ExposedModules,
    OtherModules,
    Signatures,
    ReexportedModules,
    MainIs,
    BuildDepends,
    Mixins,
    HsSourceDirs,
}

/// What a component makes of a field.
#[derive(Clone, Copy, Debug)]
pub enum Use {
    Read,
    Ignored,
    Refused,
}

/// All fields of components.
pub const COMPONENT_FIELDS: [ComponentField; 8] = [
    ComponentField::ExposedModules,
    ComponentField::OtherModules,
    ComponentField::Signatures,
    ComponentField::ReexportedModules,
    ComponentField::MainIs,
    ComponentField::BuildDepends,
    ComponentField::Mixins,
    ComponentField::HsSourceDirs,
];

/// The field of this name, which stands in small letters.
#[tactic(auto, unfolding(crate::specs::Table::component_field))]
pub fn component_field(name: &[u8]) -> Option<ComponentField>
    ensures { result ≡ component_field name.now }
{
    if name == b"exposed-modules".as_slice() {
        return Some(ComponentField::ExposedModules);
    }
    if name == b"other-modules".as_slice() {
        return Some(ComponentField::OtherModules);
    }
    if name == b"signatures".as_slice() {
        return Some(ComponentField::Signatures);
    }
    if name == b"reexported-modules".as_slice() {
        return Some(ComponentField::ReexportedModules);
    }
    if name == b"main-is".as_slice() {
        return Some(ComponentField::MainIs);
    }
    if name == b"build-depends".as_slice() {
        return Some(ComponentField::BuildDepends);
    }
    if name == b"mixins".as_slice() {
        return Some(ComponentField::Mixins);
    }
    if name == b"hs-source-dirs".as_slice() {
        return Some(ComponentField::HsSourceDirs);
    }
    None
}

/// What a component of this kind makes of a field: `main-is` is read in executables alone, `exposed-modules` and `reexported-modules`
/// in libraries alone, and an executable may have no `signatures`.
pub fn use_of(kind: Kind, field: ComponentField) -> Use
    ensures { result ≡ use_of kind field }
{
    match (kind, field) {
        (Kind::Library, ComponentField::MainIs) => Use::Ignored,
        (Kind::Executable, ComponentField::ExposedModules | ComponentField::ReexportedModules) =>
            Use::Ignored,
        (Kind::Executable, ComponentField::Signatures) => Use::Refused,
        _ => Use::Read,
    }
}

/// Whether both are one field.
pub fn is_field(field: ComponentField, other: ComponentField) -> bool
    ensures { result ≡ is_field field other }
{
    field as u8 == other as u8
}
