//! The operands of a query, in lists of one and of two.

ghost use Rattle.std.specs.Prelude.{◌≡◌, ◌∷◌, [], false, IfOk};
ghost use Rattle.std.specs.List.{Contains};
ghost use Rattle.hv_sets.specs.Query.{CanAnchor};
ghost use Rattle.hv_sets.specs.declared.operand.Operand.{Operand};
ghost use Rattle.hv_sets.specs.declared.operand.Which.TheVariants as W;

use hv_sets::{Operand, Operands, Which};
use std::alloc::{AllocError, Global};

pub(crate) fn operand(which: Which, id: usize, after: bool) -> Operand
    ensures { result ≡ record { which = which; id = id; after = after } }
{
    Operand { which, id, after }
}

// A list of one operand, which may be the anchor of a query.
pub(crate) fn one_operand(
    alloc: Global,
    which: Which,
    id: usize,
    after: bool,
) -> Result<Operands, AllocError>
    ensures one { IfOk result (λ operands. operands
        ≡ record { which = which; id = id; after = after } ∷ []) }
    ensures anchor { after ≡ false → (which ≡ W.Goal → ⊥)
        → IfOk result (λ operands. (o : Operand) × Contains operands o × CanAnchor o) }
{
    let mut operands = Operands::new(alloc);
    operands.push(operand(which, id, after))?;
    Ok(operands)
}

// A list of two operands, of which the first may be the anchor of a query.
pub(crate) fn two_operands(
    alloc: Global,
    which: Which,
    id: usize,
    after: bool,
    second: Operand,
) -> Result<Operands, AllocError>
    ensures two { IfOk result (λ operands. operands
        ≡ record { which = which; id = id; after = after } ∷ second ∷ []) }
    ensures anchor { after ≡ false → (which ≡ W.Goal → ⊥)
        → IfOk result (λ operands. (o : Operand) × Contains operands o × CanAnchor o) }
{
    let mut operands = Operands::new(alloc);
    operands.push(operand(which, id, after))?;
    operands.push(second)?;
    Ok(operands)
}
