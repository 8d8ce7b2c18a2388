//! The task of the job `sample`.

ghost use Rattle.std.specs.Prelude.{◌≡◌, ◌<◌, ◌+◌, ◌++◌, ◌∷◌, [], IfOk, OnOk, codes, decimal};
ghost use Rattle.std.specs.Prelude.{length, map};
ghost use Rattle.std.specs.List.{range_with_len};
ghost use Rattle.hv_task.specs.Strips.{atoms};
ghost use Rattle.hv_command.specs.Sample.{move_from, room_name, sample_task};
ghost use Rattle.hv_command.specs.Words.{IsRooms};

use hv_bytes::Text;
use hv_task::{Action, AtomList, Name, Task};
use std::alloc::{AllocError, Global};

/// The task of so many rooms in a ring, from 3 to 64: one begins in the first of them, and is to
/// have the key, which no action gives.
pub fn sample_task(alloc: Global, rooms: u32) -> Result<Task, AllocError>
    requires { IsRooms rooms }
    ensures { IfOk result (λ task. task ≡ sample_task rooms) }
{
    let mut task = Task::new(alloc);
    fill_task(alloc, &mut task, rooms)?;
    Ok(task)
}

// Makes the task of so many rooms of one without atoms and actions.
fn fill_task(alloc: Global, task: &mut Task, rooms: u32) -> Result<(), AllocError>
    requires rooms { IsRooms rooms }
    requires no_names { task.old.names ≡ [] }
    requires no_actions { task.old.actions ≡ [] }
    ensures { OnOk result (task.new ≡ sample_task rooms) }
{
    add_rooms(alloc, task, rooms)?;
    task.add_atom(Name::new(alloc, b"key")?)?;
    task.set_start(only(alloc, 0)?);
    task.set_goal(only(alloc, rooms)?);
    add_moves(alloc, task, rooms)
}

// Adds an atom for each room to a task without atoms.
fn add_rooms(alloc: Global, task: &mut Task, rooms: u32) -> Result<(), AllocError>
    requires rooms { IsRooms rooms }
    requires none { task.old.names ≡ [] }
    ensures { OnOk result
        (task.new ≡ record task.old { names = map room_name (range_with_len 0 rooms) }) }
{
    for room in 0..rooms {
        task.add_atom(numbered(alloc, b"room_", room)?)?;
    }
    Ok(())
}

// Adds the action of each room to a task without actions.
fn add_moves(alloc: Global, task: &mut Task, rooms: u32) -> Result<(), AllocError>
    requires rooms { IsRooms rooms }
    requires atoms { atoms task.old ≡ rooms + 1 }
    requires none { task.old.actions ≡ [] }
    ensures { OnOk result
        (task.new ≡ record task.old { actions = map (move_from rooms) (range_with_len 0 rooms) }) }
{
    for room in 0..rooms {
        task.add_action(move_from(alloc, rooms, room)?)?;
    }
    Ok(())
}

// The action that leads from this room to the next one.
fn move_from(alloc: Global, rooms: u32, room: u32) -> Result<Action, AllocError>
    requires rooms { IsRooms rooms }
    requires room { room < rooms }
    ensures { IfOk result (λ action. action ≡ move_from rooms room) }
{
    Ok(Action {
        name: numbered(alloc, b"move_", room)?,
        cost: 1,
        pre: only(alloc, room)?,
        add: only(alloc, (room + 1) % rooms)?,
        del: only(alloc, room)?,
    })
}

// The list of this atom alone.
fn only(alloc: Global, atom: u32) -> Result<AtomList, AllocError>
    ensures { IfOk result (λ list. list ≡ atom ∷ []) }
{
    let mut list = AtomList::new(alloc);
    list.insert(atom)?;
    Ok(list)
}

// The name that begins so and ends with the number.
fn numbered(alloc: Global, front: &[u8], number: u32) -> Result<Name, AllocError>
    ensures { IfOk result (λ name. name ≡ front.now ++ decimal number) }
{
    let mut text = Text::new(alloc);
    text.push_bytes(front)?;
    text.push_number(u64::from(number))?;
    Name::new(alloc, text.as_bytes())
}
