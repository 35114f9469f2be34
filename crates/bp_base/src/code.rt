//! The kinds of defect and the limits, with their numbers and words.
ghost use Rattle.std.specs.Prelude.{◌≡◌};
ghost use Rattle.bp_base.specs.Codes.{code_number, code_name, limit_name};

/// The kinds of defect, with their numbers.
#[derive(Clone, Copy, Debug, PartialEq, Eq)]
pub enum Code {
    ProjectSyntax = 1,
    ComponentSyntax = 2,
    NoComponent = 3,
    TwiceComponent = 4,
    DependencyCycle = 5,
    NoSource = 6,
    LeftOut = 7,
    Lexical = 8,
    Layout = 9,
    Syntax = 10,
    NoProvision = 11,
    NoRequirement = 12,
    NameTaken = 13,
    LinkClash = 14,
    LinkCycle = 15,
    Unfilled = 16,
    NoModule = 17,
    AmbiguousModule = 18,
    ModuleCycle = 19,
    NotInScope = 20,
    AmbiguousName = 21,
    Twice = 22,
    ExportClash = 23,
    NoSignatureOf = 24,
    Fixity = 25,
    Kind = 26,
    SynonymUse = 27,
    IllTyped = 28,
    MergeClash = 29,
    Mismatch = 30,
    NoMain = 31,
    NoEntry = 32,
    OldEntry = 33,
}

/// The limits on size.
#[derive(Clone, Copy, Debug, PartialEq, Eq)]
pub enum Which {
    FileBytes,
    SourceBytes,
    Components,
    OwnModules,
    Nesting,
    Units,
    FlatModules,
    TypeDepth,
    EntryBytes,
    Serials,
}

/// The number of a kind of defect, from 1.
pub fn defect_code(code: &Code) -> u8
    ensures { result ≡ code_number code.now }
{
    *code as u8
}

impl Code {
    /// The word for it in a note.
    pub fn name(&self) -> &'static str
        ensures { result.now ≡ code_name self.now }
    {
        match self {
            Code::ProjectSyntax => "ProjectSyntax",
            Code::ComponentSyntax => "ComponentSyntax",
            Code::NoComponent => "NoComponent",
            Code::TwiceComponent => "TwiceComponent",
            Code::DependencyCycle => "DependencyCycle",
            Code::NoSource => "NoSource",
            Code::LeftOut => "LeftOut",
            Code::Lexical => "Lexical",
            Code::Layout => "Layout",
            Code::Syntax => "Syntax",
            Code::NoProvision => "NoProvision",
            Code::NoRequirement => "NoRequirement",
            Code::NameTaken => "NameTaken",
            Code::LinkClash => "LinkClash",
            Code::LinkCycle => "LinkCycle",
            Code::Unfilled => "Unfilled",
            Code::NoModule => "NoModule",
            Code::AmbiguousModule => "AmbiguousModule",
            Code::ModuleCycle => "ModuleCycle",
            Code::NotInScope => "NotInScope",
            Code::AmbiguousName => "AmbiguousName",
            Code::Twice => "Twice",
            Code::ExportClash => "ExportClash",
            Code::NoSignatureOf => "NoSignatureOf",
            Code::Fixity => "Fixity",
            Code::Kind => "Kind",
            Code::SynonymUse => "SynonymUse",
            Code::IllTyped => "IllTyped",
            Code::MergeClash => "MergeClash",
            Code::Mismatch => "Mismatch",
            Code::NoMain => "NoMain",
            Code::NoEntry => "NoEntry",
            Code::OldEntry => "OldEntry",
        }
    }
}

impl Which {
    /// The word for it in a note.
    pub fn name(&self) -> &'static str
        ensures { result.now ≡ limit_name self.now }
    {
        match self {
            Which::FileBytes => "file-bytes",
            Which::SourceBytes => "source-bytes",
            Which::Components => "components",
            Which::OwnModules => "own-modules",
            Which::Nesting => "nesting",
            Which::Units => "units",
            Which::FlatModules => "flat-modules",
            Which::TypeDepth => "type-depth",
            Which::EntryBytes => "entry-bytes",
            Which::Serials => "serials",
        }
    }
}
