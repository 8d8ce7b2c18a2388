//! A task of three atoms, which tests of several families share.

ghost use Rattle.std.specs.Prelude.{◌≡◌, ◌<◌, ◌+◌, IfOk, OnOk, length};
ghost use Rattle.hv_task.specs.Strips.{atoms};

use hv_task::{Name, Task};
use std::alloc::{AllocError, Global};

// Puts an atom of this name last.
fn put_atom(alloc: Global, task: &mut Task, name: &[u8]) -> Result<(), AllocError>
    requires { atoms task.old < 10 }
    ensures atoms { OnOk result (atoms task.new ≡ atoms task.old + 1) }
    ensures actions { OnOk result (task.new.actions ≡ task.old.actions) }
{
    let name = Name::new(alloc, name)?;
    let _number = task.add_atom(name)?;
    Ok(())
}

// Puts three atoms last.
fn put_three(alloc: Global, task: &mut Task) -> Result<(), AllocError>
    requires { atoms task.old ≡ 0 }
    ensures atoms { OnOk result (atoms task.new ≡ 3) }
    ensures actions { OnOk result (task.new.actions ≡ task.old.actions) }
{
    put_atom(alloc, task, b"p")?;
    put_atom(alloc, task, b"q")?;
    put_atom(alloc, task, b"r")
}

/// A task of three atoms, without actions.
pub(crate) fn task_of_three(alloc: Global) -> Result<Task, AllocError>
    ensures atoms { IfOk result (λ task. atoms task ≡ 3) }
    ensures actions { IfOk result (λ task. length task.actions ≡ 0) }
{
    let mut task = Task::new(alloc);
    put_three(alloc, &mut task)?;
    Ok(task)
}
