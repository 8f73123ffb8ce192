//! Laws: functions that do nothing, with what their contracts state.

ghost use Rattle.std.specs.Prelude.{◌≡◌, Ok, Err, Some};
ghost use Rattle.ep_ast.specs.Expression.{Expr, line_of};
ghost use Rattle.ep_ast.specs.Kind.{bit_field_place};
ghost use Rattle.ep_ast.specs.declared.refusals.Refusal.{Refusal as Fault};
ghost use Rattle.ep_core.specs.Program.{Place};
ghost use Rattle.ep_typing.specs.declared.types.FieldRow.{FieldRow};
ghost use Rattle.ep_typing.specs.Env.{Env};
ghost use Rattle.ep_typing.specs.Operand.{Operand};
ghost use Rattle.ep_typing.specs.Rules.{Means, MeansField};
ghost use Rattle.ep_typing.specs.Offences.{Offends, refusal};
ghost use Rattle.ep_typing.specs.Typing.{field_of, typed};

/// What an expression means is what the rules without an order say; and for what it is refused is the first point in
/// the order of the text that breaks a rule.
pub fn expressions()
    ensures means { (G : Env) (e : Expr) (z : Operand) → typed G e ≡ Ok z → Means G e z }
    ensures meant { (G : Env) (e : Expr) (z : Operand) → Means G e z → typed G e ≡ Ok z }
    ensures refused { (G : Env) (e : Expr) (r : Fault) → typed G e ≡ Err r → Offends G e r }
    ensures first { (G : Env) (e : Expr) (r : Fault) → Offends G e r → typed G e ≡ Err r }
{}

/// Which expressions are bit-fields is what the rules say, and one that is means nothing else: where an expression is
/// asked, it is refused.
pub fn bit_fields()
    ensures means { (G : Env) (e : Expr) (z : Place × FieldRow) → field_of G e ≡ Some z → MeansField G e z }
    ensures meant { (G : Env) (e : Expr) (z : Place × FieldRow) → MeansField G e z → field_of G e ≡ Some z }
    ensures refused { (G : Env) (e : Expr) (z : Place × FieldRow) → MeansField G e z
        → Offends G e (refusal bit_field_place (line_of e)) }
    ensures alone { (G : Env) (e : Expr) (z : Place × FieldRow) (x : Operand) → MeansField G e z → Means G e x → ⊥ }
{}
