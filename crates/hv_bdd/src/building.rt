//! Node lists that grow by one node after the other, with the first fault of each. Memory is taken
//! for what was read, and not for what the first line says.

ghost use Rattle.std.specs.Prelude.{◌≡◌, ◌<◌, None, IfOk, OnOk, IfSome, length};
ghost use Rattle.hv_bdd.specs.Building.{fault_of};
ghost use Rattle.hv_bdd.specs.Working.Building.{as_node, with_node};
ghost use Rattle.hv_bdd.specs.Working.Chains.{IsChained};

use crate::chains::Chains;
use crate::diagrams::Diagrams;
use crate::fault::NodeKind;
use crate::numbers::Triple;
use std::alloc::AllocError;

/// Adds the node of these numbers to the diagrams and to what was seen of their nodes, or says what
/// is wrong with it.
pub(crate) fn add(
    list: &mut Diagrams,
    seen: &mut Chains,
    triple: &Triple,
) -> Result<Option<NodeKind>, AllocError>
    requires seen { IsChained list.old.nodes seen.old }
    requires few { length list.old.nodes < 16777216 }
    ensures fault { IfOk result (λ fault. fault ≡ fault_of list.old (as_node triple.now)) }
    ensures added { IfOk result (λ fault.
        fault ≡ None → list.new ≡ with_node list.old (as_node triple.now)) }
    ensures refused { IfOk result (λ fault. IfSome fault (λ _. list.new ≡ list.old)) }
    ensures seen { OnOk result (IsChained list.new.nodes seen.new) }
{
    let node = match list.plain_node(triple) {
        Ok(node) => node,
        Err(kind) => return Ok(Some(kind)),
    };
    let sought = seen.seek(list.listed(), &node);
    if sought.listed {
        return Ok(Some(NodeKind::Twin));
    }
    seen.push(list.listed(), &node, sought.passed)?;
    list.push(node)?;
    Ok(None)
}
