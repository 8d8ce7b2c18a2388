//! Task texts from a shelf, part by part.

ghost use Rattle.std.specs.Prelude.{◌≡◌, ◌≤◌, ◌<◌, ◌+◌, ◌^◌, [], length, IfOk, IfSome, OnOk};
ghost use Rattle.std.specs.Prelude.{IsErrOf, IsTrue, codes};
ghost use Rattle.hv_bytes.specs.Devices.{Rose};
ghost use Rattle.hv_bytes.specs.Files.{bytes_of};
ghost use Rattle.hv_grammar.specs.Forms.{numbered_line, word_line};
ghost use Rattle.hv_grammar.specs.Parsers.{line, one_more, repeat};
ghost use Rattle.hv_grammar.specs.Positions.{CanRead};
ghost use Rattle.hv_grammar.specs.Reads.{Reads};
ghost use Rattle.hv_grammar.specs.Working.Reads.{placed};
ghost use Rattle.hv_task.specs.State.{AreBelow};
ghost use Rattle.hv_task.specs.Strips.{IsOver, atoms};
ghost use Rattle.hv_task_text.specs.TaskFile.{action, action_lists, all_actions, atom_names};
ghost use Rattle.hv_task_text.specs.TaskFile.{atom_or, atom_set, goal_atoms, item_or};
ghost use Rattle.hv_task_text.specs.TaskFile.{line_of_name, start_atoms, task_file};
ghost use Rattle.hv_task_text.specs.TaskText.{IsTaskReadFrom};
ghost use Rattle.hv_task_text.specs.Working.Reading.{no_lists, no_task};
ghost use Rattle.hv_task_text.specs.Written.{IsItem};
ghost use Rattle.hv_task_text.specs.declared.fault.TaskKind.TheVariants as Kind;
ghost use Rattle.hv_task_text.specs.declared.fault.TaskLimit.TheVariants as Limit;
ghost use Rattle.hv_task_text.specs.declared.fault.TaskRefusal.TheVariants as Refusal;

use crate::atom_lists::{AtomLists, Item};
use crate::fault::{TaskFault, TaskKind, TaskLimit, TaskRefusal};
use crate::forms;
use hv_bytes::{Limits, Shelf};
use hv_grammar::{
    ParseFault, Reader, Source, at_line, end_of_input, next_line, numbered_line, open, word_line,
};
use hv_task::{Action, AtomList, AtomSet, Name, Task};
use std::alloc::Global;

type Read<T> = Result<T, ParseFault<TaskRefusal>>;

const MOST_ATOMS: u64 = 65_535;

const MOST_ACTIONS: u64 = 1_000_000;

// A name of this kind.
#[inline(always)]
fn name_line<R: Source>(alloc: Global, reader: &mut R, kind: TaskKind) -> Read<Name>
    requires { CanRead (R.position reader.old) }
    ensures { Reads (line_of_name kind) (R.position reader.old) (R.position reader.new) result }
{
    next_line(reader, TaskRefusal::Place(kind))?;
    at_line(reader, forms::is_short_name(reader.line()))?;
    Ok(Name::new(alloc, reader.line())?)
}

// One more name of an atom.
fn one_name<R: Source>(alloc: Global, reader: &mut R, task: &mut Task) -> Read<()>
    requires can { CanRead (R.position reader.old) }
    requires few { atoms task.old < 65535 }
    ensures reads { Reads (one_more (line_of_name Kind.AtomName) task.old.names)
        (R.position reader.old) (R.position reader.new) (placed task.new.names result) }
    ensures task { OnOk result (task.new ≡ record task.old { names = task.new.names }) }
    ensures count { OnOk result (atoms task.new ≡ atoms task.old + 1) }
{
    let name = name_line(alloc, reader, TaskKind::AtomName)?;
    task.add_atom(name)?;
    Ok(())
}

// So many names of atoms.
fn names<R: Source>(alloc: Global, reader: &mut R, task: &mut Task, count: u64) -> Read<()>
    requires can { CanRead (R.position reader.old) }
    requires fresh { task.old ≡ no_task }
    requires few { count ≤ 65535 }
    ensures reads { Reads (repeat count (line_of_name Kind.AtomName))
        (R.position reader.old) (R.position reader.new) (placed task.new.names result) }
    ensures task { OnOk result (task.new ≡ record no_task { names = task.new.names }) }
{
    for done in 0..count {
        let _ = done;
        one_name(alloc, reader, task)?;
    }
    Ok(())
}

// The names of the atoms.
fn atom_names<R: Source>(alloc: Global, reader: &mut R, task: &mut Task) -> Read<()>
    requires can { CanRead (R.position reader.old) }
    requires fresh { task.old ≡ no_task }
    ensures reads { Reads atom_names
        (R.position reader.old) (R.position reader.new) (placed task.new.names result) }
    ensures task { OnOk result (task.new ≡ record no_task { names = task.new.names }) }
{
    let count = numbered_line(
        reader,
        b"begin_atoms:",
        MOST_ATOMS,
        TaskRefusal::Place(TaskKind::BeginAtoms),
        TaskRefusal::Limit(TaskLimit::Atoms),
    )?;
    names(alloc, reader, task, count)?;
    word_line(reader, b"end_atoms", TaskRefusal::Place(TaskKind::EndAtoms))
}

// One of so many atoms, or none where the line is the closing word.
fn atom_line<R: Source>(
    reader: &mut R,
    closing: &[u8],
    kind: TaskKind,
    atoms: u32,
) -> Read<Option<u32>>
    requires { CanRead (R.position reader.old) }
    ensures reads { Reads (line (Refusal.Place kind) (atom_or closing.now kind atoms))
        (R.position reader.old) (R.position reader.new) result }
    ensures below { IfOk result (λ atom. IfSome atom (λ n. n < atoms)) }
    ensures next { IfOk result (λ _. (R.position reader.new).lines.number
        ≡ (R.position reader.old).lines.number + 1) }
{
    next_line(reader, TaskRefusal::Place(kind))?;
    at_line(reader, forms::atom_or(reader.line(), closing, kind, atoms))
}

// A set of atoms, up to its closing word.
fn atom_set<R: Source>(
    alloc: Global,
    reader: &mut R,
    closing: &[u8],
    kind: TaskKind,
    atoms: u32,
) -> Read<AtomList>
    requires { CanRead (R.position reader.old) }
    ensures reads { Reads (atom_set closing.now kind atoms)
        (R.position reader.old) (R.position reader.new) result }
    ensures below { IfOk result (AreBelow atoms) }
{
    let mut set = AtomSet::new(alloc);
    'lines: while let Some(atom) = atom_line(reader, closing, kind, atoms)? {
        set.insert(atom)?;
    }
    Ok(set.take(alloc)?)
}

// The initial state.
fn start_atoms<R: Source>(alloc: Global, reader: &mut R, atoms: u32) -> Read<AtomList>
    requires { CanRead (R.position reader.old) }
    ensures reads { Reads (start_atoms atoms)
        (R.position reader.old) (R.position reader.new) result }
    ensures below { IfOk result (AreBelow atoms) }
{
    word_line(
        reader,
        b"begin_init",
        TaskRefusal::Place(TaskKind::BeginInit),
    )?;
    atom_set(alloc, reader, b"end_init", TaskKind::InitAtom, atoms)
}

// The goal.
fn goal_atoms<R: Source>(alloc: Global, reader: &mut R, atoms: u32) -> Read<AtomList>
    requires { CanRead (R.position reader.old) }
    ensures reads { Reads (goal_atoms atoms)
        (R.position reader.old) (R.position reader.new) result }
    ensures below { IfOk result (AreBelow atoms) }
{
    word_line(
        reader,
        b"begin_goal",
        TaskRefusal::Place(TaskKind::BeginGoal),
    )?;
    atom_set(alloc, reader, b"end_goal", TaskKind::GoalAtom, atoms)
}

// One line of the lists of an action, or none where it ends the action.
fn item_line<R: Source>(reader: &mut R, atoms: u32) -> Read<Option<Item>>
    requires { CanRead (R.position reader.old) }
    ensures reads { Reads (line (Refusal.Place Kind.ActionLine) (item_or atoms))
        (R.position reader.old) (R.position reader.new) result }
    ensures is_item { IfOk result (λ item. IfSome item (IsItem atoms)) }
    ensures next { IfOk result (λ _. (R.position reader.new).lines.number
        ≡ (R.position reader.old).lines.number + 1) }
{
    next_line(reader, TaskRefusal::Place(TaskKind::ActionLine))?;
    at_line(reader, forms::item_or(reader.line(), atoms))
}

// The lists of an action of this name and cost.
#[inline(always)]
fn action_lists<R: Source>(
    alloc: Global,
    reader: &mut R,
    atoms: u32,
    lists: &mut AtomLists,
    name: Name,
    cost: u32,
) -> Read<Action>
    requires can { CanRead (R.position reader.old) }
    requires fresh { lists.old ≡ no_lists }
    ensures reads { Reads (action_lists atoms name cost)
        (R.position reader.old) (R.position reader.new) result }
    ensures over { IfOk result (IsOver atoms) }
    ensures none { OnOk result (lists.new ≡ no_lists) }
{
    'lines: while let Some(item) = item_line(reader, atoms)? {
        lists.put(item)?;
    }
    Ok(lists.action(alloc, name, cost)?)
}

// The line that begins an action.
fn begin_action<R: Source>(reader: &mut R) -> Read<()>
    requires { CanRead (R.position reader.old) }
    ensures { Reads (word_line (codes "begin_action") (Refusal.Place Kind.BeginAction))
        (R.position reader.old) (R.position reader.new) result }
{
    next_line(reader, TaskRefusal::Place(TaskKind::BeginAction))?;
    at_line(reader, forms::begins_action(reader.line()))
}

// The cost of an action.
fn cost_line<R: Source>(reader: &mut R) -> Read<u64>
    requires { CanRead (R.position reader.old) }
    ensures reads { Reads (numbered_line (codes "cost:") 4294967295 (Refusal.Place Kind.Cost)
        (Refusal.Limit Limit.Cost)) (R.position reader.old) (R.position reader.new) result }
    ensures most { IfOk result (λ cost. cost ≤ 4294967295) }
{
    next_line(reader, TaskRefusal::Place(TaskKind::Cost))?;
    at_line(reader, forms::cost_in(reader.line()))
}

// An action in a task of so many atoms.
#[inline(always)]
fn action<R: Source>(
    alloc: Global,
    reader: &mut R,
    atoms: u32,
    lists: &mut AtomLists,
) -> Read<Action>
    requires can { CanRead (R.position reader.old) }
    requires fresh { lists.old ≡ no_lists }
    ensures reads { Reads (action atoms) (R.position reader.old) (R.position reader.new) result }
    ensures over { IfOk result (IsOver atoms) }
    ensures none { OnOk result (lists.new ≡ no_lists) }
{
    begin_action(reader)?;
    let name = name_line(alloc, reader, TaskKind::ActionName)?;
    let cost = cost_line(reader)?;
    action_lists(alloc, reader, atoms, lists, name, cost as u32)
}

// One more action.
#[inline(always)]
fn one_action<R: Source>(
    alloc: Global,
    reader: &mut R,
    task: &mut Task,
    lists: &mut AtomLists,
) -> Read<()>
    requires can { CanRead (R.position reader.old) }
    requires fresh { lists.old ≡ no_lists }
    requires few { length task.old.actions < 1000000 }
    ensures reads { Reads (one_more (action (atoms task.old)) task.old.actions)
        (R.position reader.old) (R.position reader.new) (placed task.new.actions result) }
    ensures task { OnOk result (task.new ≡ record task.old { actions = task.new.actions }) }
    ensures count { OnOk result
        (length task.new.actions ≡ length task.old.actions + 1) }
    ensures none { OnOk result (lists.new ≡ no_lists) }
{
    let action = action(alloc, reader, task.atoms(), lists)?;
    task.add_action(action)?;
    Ok(())
}

// So many actions.
fn actions<R: Source>(alloc: Global, reader: &mut R, task: &mut Task, count: u64) -> Read<()>
    requires can { CanRead (R.position reader.old) }
    requires fresh { task.old.actions ≡ [] }
    requires few { count ≤ 1000000 }
    ensures reads { Reads (repeat count (action (atoms task.old)))
        (R.position reader.old) (R.position reader.new) (placed task.new.actions result) }
    ensures task { OnOk result (task.new ≡ record task.old { actions = task.new.actions }) }
{
    let mut lists = AtomLists::new(alloc);
    for done in 0..count {
        let _ = done;
        one_action(alloc, reader, task, &mut lists)?;
    }
    Ok(())
}

// The actions.
fn all_actions<R: Source>(alloc: Global, reader: &mut R, task: &mut Task) -> Read<()>
    requires can { CanRead (R.position reader.old) }
    requires fresh { task.old.actions ≡ [] }
    ensures reads { Reads (all_actions (atoms task.old))
        (R.position reader.old) (R.position reader.new) (placed task.new.actions result) }
    ensures task { OnOk result (task.new ≡ record task.old { actions = task.new.actions }) }
{
    let count = numbered_line(
        reader,
        b"begin_actions:",
        MOST_ACTIONS,
        TaskRefusal::Place(TaskKind::BeginActions),
        TaskRefusal::Limit(TaskLimit::Actions),
    )?;
    actions(alloc, reader, task, count)?;
    word_line(
        reader,
        b"end_actions",
        TaskRefusal::Place(TaskKind::EndActions),
    )
}

// The initial state, which the task then has.
fn put_start<R: Source>(alloc: Global, reader: &mut R, task: &mut Task) -> Read<()>
    requires { CanRead (R.position reader.old) }
    ensures reads { Reads (start_atoms (atoms task.old))
        (R.position reader.old) (R.position reader.new) (placed task.new.start result) }
    ensures task { OnOk result (task.new ≡ record task.old { start = task.new.start }) }
{
    let start = start_atoms(alloc, reader, task.atoms())?;
    task.set_start(start);
    Ok(())
}

// The goal, which the task then has.
fn put_goal<R: Source>(alloc: Global, reader: &mut R, task: &mut Task) -> Read<()>
    requires { CanRead (R.position reader.old) }
    ensures reads { Reads (goal_atoms (atoms task.old))
        (R.position reader.old) (R.position reader.new) (placed task.new.goal result) }
    ensures task { OnOk result (task.new ≡ record task.old { goal = task.new.goal }) }
{
    let goal = goal_atoms(alloc, reader, task.atoms())?;
    task.set_goal(goal);
    Ok(())
}

// The parts of the file, which the task then has.
fn parts<R: Source>(alloc: Global, reader: &mut R, task: &mut Task) -> Read<()>
    requires can { CanRead (R.position reader.old) }
    requires fresh { task.old ≡ no_task }
    ensures { Reads task_file
        (R.position reader.old) (R.position reader.new) (placed task.new result) }
{
    atom_names(alloc, reader, task)?;
    put_start(alloc, reader, task)?;
    put_goal(alloc, reader, task)?;
    all_actions(alloc, reader, task)?;
    end_of_input(reader, TaskRefusal::Place(TaskKind::End))
}

// The whole file.
fn whole<R: Source>(alloc: Global, reader: &mut R) -> Read<Task>
    requires { CanRead (R.position reader.old) }
    ensures { Reads task_file (R.position reader.old) (R.position reader.new) result }
{
    let mut task = Task::new(alloc);
    parts(alloc, reader, &mut task)?;
    Ok(task)
}

/// Reads the task text of this name. It answers with the task exactly where the file is a text of a
/// task within the limits, and otherwise with its first fault.
pub fn read_task<S: Shelf>(
    alloc: Global,
    shelf: &mut S,
    name: &str,
    limits: Limits,
) -> Result<Task, TaskFault>
    requires allowed { IsTrue (S.allows shelf.old name.now) }
    requires line { limits.line ≤ 2 ^ 62 }
    requires file { limits.file ≤ 2 ^ 62 }

    // where the source's bytes are known
    ensures read { IfSome (S.held shelf.old) (λ held.
        IsTaskReadFrom limits (bytes_of held name.now) result) }

    ensures held { S.held shelf.new ≡ S.held shelf.old }
    ensures allows { S.allows shelf.new ≡ S.allows shelf.old }

    ensures later { S.faults shelf.old ≤ S.faults shelf.new }
    ensures cause { IsErrOf result TaskFault.ReadFault →
        Rose (S.faults shelf.old) (S.faults shelf.new) }
{
    let mut lines = open(alloc, shelf, name, limits)?;
    let mut reader = Reader::new(&mut lines, shelf);
    let task = whole(alloc, &mut reader)?;
    Ok(task)
}
