//! Laws: functions that do nothing, with what their contracts state.

ghost use Rattle.ep_elaboration.specs.Laws.{WholeStatements, Declarations, Statements, Programs, OneMeaning, OneOfBoth};
ghost use Rattle.ep_elaboration.specs.Laws.{NeverBoth, SortsStay, PlacesStay};

/// What an expression means as a whole statement is what the rules say, and it is refused for the first offence.
pub fn whole_statements()
    ensures { WholeStatements }
{}

/// The same of declarations of variables.
pub fn declarations()
    ensures { Declarations }
{}

/// The same of statements.
pub fn statements()
    ensures { Statements }
{}

/// The same of whole programs. A program means one core program at most, and either it means one or it offends, never
/// both.
pub fn programs()
    ensures rules { Programs }
    ensures one { OneMeaning }
    ensures either { OneOfBoth }
    ensures never_both { NeverBoth }
{}

/// What is typed stays typed while a program goes on: its table grows, blocks come, and scopes let more be named.
pub fn growth()
    ensures sorts { SortsStay }
    ensures places { PlacesStay }
{}
