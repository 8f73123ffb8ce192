//! The trees of functions and items, where nothing in them is too deep.

ghost use Rattle.std.specs.Prelude.{◌≡◌, List, Option, Some};
ghost use Rattle.ep_ast.specs.Declaration as shape;
ghost use Rattle.ep_ast.specs.Declaration.{aggregate_of, head_of};
ghost use Rattle.ep_ast.specs.Kind.{nesting};
ghost use Rattle.ep_ast.specs.Statement as tree;
ghost use Rattle.ep_ast.specs.Depth.{in_aggregate, in_head};
ghost use Rattle.ep_reading.specs.Measured.{Shows};
ghost use Rattle.ep_declarations.specs.DeclaratorAnswer.{ShowsDeclarators};
ghost use Rattle.ep_declarations.specs.Answer.{ShowsSpecs, ShowsDeclaration};
ghost use Rattle.ep_statement_parts.specs.Answer.{ShowsBlock};
ghost use Rattle.ep_decls.specs.Answer.{ShowsFunction, ShowsFunctions, ShowsOther, ShowsItem, ShowsItems, IsWhole};

use ep_ast::{
    AggregateTree, BlockTree, DeclarationTree, DeclaratorTree, FunctionTree, HeadTree, ItemTree,
    NamedOrder, ProgramTree, Refusal, RefusalKind, TypedefTree,
};
use ep_declarations::SpecList;
use ep_reading::Measured;

/// A function with its body.
pub fn function_of(head: Measured<HeadTree>, body: Measured<BlockTree>) -> Measured<FunctionTree>
    ensures { (h : shape.Head) → (b : tree.Block) → Shows head_of in_head head h → ShowsBlock body b
        → ShowsFunction result (record { line = h.line; head = h; body = b }) }
{
    match head.and(body) {
        Measured::TooDeep(line) => Measured::TooDeep(line),
        Measured::Fits((head, body)) => Measured::Fits(FunctionTree {
            line: head.line,
            head,
            body,
        }),
    }
}

/// An item that defines a function.
pub fn defined(function: Measured<FunctionTree>) -> Measured<ItemTree>
    ensures { (f : tree.Function) → ShowsFunction function f → ShowsItem result (tree.defines f) }
{
    match function {
        Measured::TooDeep(line) => Measured::TooDeep(line),
        Measured::Fits(function) => Measured::Fits(ItemTree::Function(function)),
    }
}

/// An item that declares a function.
pub fn prototype(head: Measured<HeadTree>) -> Measured<ItemTree>
    ensures { (h : shape.Head) → Shows head_of in_head head h → ShowsItem result (tree.prototype h) }
{
    match head {
        Measured::TooDeep(line) => Measured::TooDeep(line),
        Measured::Fits(head) => Measured::Fits(ItemTree::Prototype(head)),
    }
}

/// An item that declares variables or names of types.
pub fn declared(declaration: Measured<DeclarationTree>) -> Measured<ItemTree>
    ensures { (d : shape.Declaration) → ShowsDeclaration declaration d → ShowsItem result (tree.declares_all d) }
{
    match declaration {
        Measured::TooDeep(line) => Measured::TooDeep(line),
        Measured::Fits(declaration) => Measured::Fits(ItemTree::Declaration(declaration)),
    }
}

/// An item that is a structure or union alone.
pub fn completed(aggregate: Measured<AggregateTree>) -> Measured<ItemTree>
    ensures { (a : shape.Aggregate) → Shows aggregate_of in_aggregate aggregate a
        → ShowsItem result (tree.completes a) }
{
    match aggregate {
        Measured::TooDeep(line) => Measured::TooDeep(line),
        Measured::Fits(aggregate) => Measured::Fits(ItemTree::Aggregate(aggregate)),
    }
}

/// Names of types. The line is that of the word `typedef`.
pub fn new_types(
    line: u32,
    specs: SpecList,
    declarators: Measured<Vec<DeclaratorTree>>,
) -> Measured<ItemTree>
    ensures { (ss : List shape.Spec) → (ds : List shape.Declarator) → ShowsSpecs specs ss
        → ShowsDeclarators declarators ds
        → ShowsItem result (tree.typedefs (record { line = line; specs = ss; declarators = ds })) }
{
    match specs.tree.and(declarators) {
        Measured::TooDeep(first) => Measured::TooDeep(first),
        Measured::Fits((specs, declarators)) => Measured::Fits(ItemTree::Typedef(TypedefTree {
            line,
            specs,
            declarators,
        })),
    }
}

/// Functions by byte order. The line is that of the `#if`.
pub fn by_order(
    line: u32,
    order: NamedOrder,
    then: Measured<Vec<FunctionTree>>,
    otherwise: Measured<Option<Vec<FunctionTree>>>,
) -> Measured<ItemTree>
    ensures { (fs : List tree.Function) → (gs : Option (List tree.Function)) → ShowsFunctions then fs
        → ShowsOther otherwise gs → ShowsItem result (tree.functions_by_order line order fs gs) }
{
    match then.and(otherwise) {
        Measured::TooDeep(first) => Measured::TooDeep(first),
        Measured::Fits((then, otherwise)) => {
            Measured::Fits(ItemTree::Arms(line, order, then, otherwise))
        }
    }
}

/// The functions behind an `#else`.
pub fn behind_else(functions: Measured<Vec<FunctionTree>>) -> Measured<Option<Vec<FunctionTree>>>
    ensures { (fs : List tree.Function) → ShowsFunctions functions fs → ShowsOther result (Some fs) }
{
    match functions {
        Measured::TooDeep(line) => Measured::TooDeep(line),
        Measured::Fits(list) => Measured::Fits(Some(list)),
    }
}

/// A refusal of what has more than 64 inside one another.
pub fn too_deep(line: u32) -> Refusal
    ensures { (result.kind ≡ nesting) × (result.word ≡ 0) × (result.line ≡ line) }
{
    Refusal::new(RefusalKind::Nesting, line)
}

/// The program, where nothing in it is too deep.
pub fn whole(items: Measured<Vec<ItemTree>>) -> Result<ProgramTree, Refusal>
    ensures { (is : List tree.Item) → ShowsItems items is → IsWhole is result }
{
    match items {
        Measured::Fits(items) => Ok(ProgramTree { items }),
        Measured::TooDeep(line) => Err(too_deep(line)),
    }
}
