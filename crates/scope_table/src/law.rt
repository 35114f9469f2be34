//! What holds of the tables.
ghost use Rattle.scope_table.specs.Laws.{TablesMean};

/// What a table says of a name is what the name means, with the fixity that it has; a refusal is why it means nothing.
pub fn tables_mean()
    ensures { TablesMean }
{}
