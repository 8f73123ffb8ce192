//! Every program that is elaborated is well formed: laws alone.
#![tactic(auto)]

ghost use Rattle.ep_well_formed_laws.specs.Laws.{BlocksFit, DeclarationsFit, DefinitionsFit, ExpressionsFit};
ghost use Rattle.ep_well_formed_laws.specs.Laws.{MentionsKeep, WholeStatementsFit};
ghost use Rattle.ep_well_formed_laws.specs.ProgramLaws.{AllAreSeen, ArmsMayDiffer, ProgramsFit};

/// Expressions compute what their types say.
pub fn expressions()
    ensures mentions { MentionsKeep }
    ensures operands { ExpressionsFit }
{}

/// As whole statements they come to statements of the core that fit.
pub fn whole_statements()
    ensures { WholeStatementsFit }
{}

/// Declarations of variables and blocks of statements come to statements that fit.
pub fn blocks()
    ensures declarations { DeclarationsFit }
    ensures parts { BlocksFit }
{}

/// Functions that are defined fit.
pub fn definitions()
    ensures { DefinitionsFit }
{}

/// Every program that is elaborated is well formed.
pub fn programs()
    ensures { ProgramsFit }
{}

/// Each function that was declared is seen at file scope, but those of a first arm in the second.
pub fn functions()
    ensures { AllAreSeen }
{}

/// Arms may agree where they are compared and yet differ in the type of a function, which is refused in the second one.
pub fn second_arms()
    ensures { ArmsMayDiffer }
{}
