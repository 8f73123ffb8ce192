//! The trees of the grammar, and the refusals of a source.
#![tactic(auto)]

mod declarations;
mod expressions;
mod kinds;
mod marks;
mod orders;
mod refusals;
mod statements;
mod words;

pub use declarations::{
    AggregateTree, DeclarationTree, DeclaratorTree, HeadTree, InitTree, MemberFieldTree,
    MemberTree, ParamTree, ParamsTree, SpecTree, TypedefTree, ValueTree,
};
pub use expressions::{ExprTree, Literal, TypeNameTree, TypeWordTree};
pub use kinds::RefusalKind;
pub use marks::Mark;
pub use orders::NamedOrder;
pub use refusals::{Halt, Refusal, refusal_text};
pub use statements::{
    BlockItemTree, BlockTree, ForInitTree, FunctionTree, HeadingTree, ItemTree, ProgramTree,
    StmtTree,
};
pub use words::{ReservedWord, Word};
