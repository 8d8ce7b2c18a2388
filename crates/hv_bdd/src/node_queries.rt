//! Queries about nodes.

ghost use Rattle.std.specs.Prelude.{◌≡◌, ◌<◌, ◌∷◌, ◌++◌, [], length, IfOk, IfSome, OnOk};
ghost use Rattle.hv_task.specs.Strips.{IsTask, atoms};
ghost use Rattle.hv_sets.specs.Query.{action_of};
ghost use Rattle.hv_bdd.specs.Nodes.{in_node, node_count};
ghost use Rattle.hv_bdd.specs.Live.{LivePass, asked_of, changed_by, needed_by, operands_of};
ghost use Rattle.hv_bdd.specs.Working.Search.{active, is_idle};

use crate::asked::Asked;
use crate::atom_bits::AtomBits;
use crate::diagrams::Diagrams;
use crate::node_inquiry::NodeInquiry;
use hv_sets::{Family, Finding, Operand, Query, Scratch, Which};
use hv_task::Task;
use std::alloc::{AllocError, Global};

impl Family for Diagrams {
    ghost has = { in_node };

    ghost is_over = { λ list n. list.atoms ≡ n };

    ghost count = { node_count };

    ghost wants_anchor = { λ _. ⊥ };

    ghost passes = { LivePass };

    fn find(
        &self,
        alloc: Global,
        task: &Task,
        query: &Query,
        budget: u64,
        scratch: &mut Scratch,
    ) -> Result<Finding, AllocError> {
        let mut inquiry = NodeInquiry::new(self, task);
        inquiry.find(alloc, query, budget, scratch)
    }
}

// The operands of a query as the places of its tuples: the positive ones, and then the negative
// ones. Those that say nothing are left out: with their nodes and without, tuples are one to one.
pub(crate) fn active_operands(alloc: Global, query: &Query) -> Result<Vec<Asked>, AllocError>
    ensures { IfOk result (λ asked. asked.items ≡ active (operands_of query.now)) }
{
    let mut asked = Vec::new(alloc);
    for operand in query.positive.as_slice() {
        put_active(&mut asked, asked_of(true, operand))?;
    }
    for operand in query.negative.as_slice() {
        put_active(&mut asked, asked_of(false, operand))?;
    }
    Ok(asked)
}

// Puts the operand last, if it says something.
fn put_active(asked: &mut Vec<Asked>, operand: Asked) -> Result<(), AllocError>
    ensures { OnOk result (asked.new.items ≡ asked.old.items ++ active (operand ∷ [])) }
{
    if !is_idle(&operand) {
        asked.push(operand)?;
    }
    Ok(())
}

// Whether it says nothing: each state is outside the empty set.
fn is_idle(operand: &Asked) -> bool
    ensures { result ≡ is_idle operand.now }
{
    match operand.which {
        Which::Empty => !operand.positive,
        _ => false,
    }
}

fn asked_of(positive: bool, operand: &Operand) -> Asked
    ensures { result ≡ asked_of positive operand.now }
{
    Asked {
        which: operand.which,
        after: operand.after,
        positive,
    }
}

// The bits that an action needs.
pub(crate) fn needed_by<'a>(task: &'a Task, action: Option<u32>) -> AtomBits<'a>
    requires { IfSome action (λ a. a < length task.now.actions) }
    ensures bits { result ≡ needed_by (atoms task.now) (action_of task.now action) }
    ensures task { IsTask task.now }
{
    match action {
        None => AtomBits::none(task.atoms()),
        Some(number) => AtomBits::needed(task.atoms(), task.action(number)),
    }
}

// The bits that an action changes.
pub(crate) fn changed_by<'a>(task: &'a Task, action: Option<u32>) -> AtomBits<'a>
    requires { IfSome action (λ a. a < length task.now.actions) }
    ensures { result ≡ changed_by (atoms task.now) (action_of task.now action) }
{
    match action {
        None => AtomBits::none(task.atoms()),
        Some(number) => AtomBits::changed(task.atoms(), task.action(number)),
    }
}
