//! What the definitions of specs/ mean. Each function here is a law: its contract is what is proved, and it does
//! nothing.
ghost use Rattle.std.specs.Prelude.{◌≡◌};
ghost use Rattle.pat_types.specs.declared.expr.Expr.{Expr};
ghost use Rattle.cons_eval.specs.Meanings.{Meanings};
ghost use Rattle.constraint_values.specs.Parts.{parts_of, values_in, AreValuesOf};

/// The values of an expression are as many as its parts, each at the place of its part: the part's own value, or none.
pub fn values_are_those_of_the_parts()
    ensures { (m : Meanings) (e : Expr) → AreValuesOf m (parts_of e) (values_in m e) }
{}
