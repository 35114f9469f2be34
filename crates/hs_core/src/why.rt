//! Why a module does not match a signature.

/// The first thing in which an entry of a signature and what a module exports for it differ, in this order.
#[derive(Clone, Copy, Debug, PartialEq, Eq)]
pub enum Why {
    /// The module exports nothing of that space and name.
    Missing,
    /// An abstract type meets a synonym with parameters; another declaration meets one of another form, or a synonym with another
    /// number of parameters.
    Form,
    /// The kinds differ.
    Kind,
    /// The constructors' names or their order differ, or one is not exported.
    Constructors,
    /// A field's type or strictness mark, or a constructor's fixity differs.
    FieldType,
    /// The types of a value, or the bodies of a synonym, differ.
    OtherType,
    /// The fixities of a value differ.
    Fixity,
}
