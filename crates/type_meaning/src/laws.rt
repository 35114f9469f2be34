//! The law of sets of types.
ghost use Rattle.type_meaning.specs.MeaningLaws.{TypedExpressionsAreMeant, TypedDeclarationsAreMeant, TypedPatternsAreMeant};

/// What is typed under schemes is typed where each local stands for a set that has the instances of its scheme.
pub fn typings_are_meant()
    ensures expressions { TypedExpressionsAreMeant }
    ensures declarations { TypedDeclarationsAreMeant }
    ensures patterns { TypedPatternsAreMeant }
{}
