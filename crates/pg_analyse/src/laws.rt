ghost use Rattle.pg_analyse.specs.Laws.{DeclarationsFit, StatementsFit};

/// A table that is declared over a catalogue that fits leaves one that fits.
pub fn declarations_fit()
    ensures { DeclarationsFit }
{}

/// What a statement without errors means fits the catalogue that it was analysed over.
pub fn statements_fit()
    ensures { StatementsFit }
{}
