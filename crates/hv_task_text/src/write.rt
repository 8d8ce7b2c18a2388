//! The canonical text of a task.

ghost use Rattle.std.specs.Prelude.{◌≡◌, ◌≤◌, ◌++◌, codes, length, decimal, OnOk, IfOk};
ghost use Rattle.std.specs.List.{flat_map, All};
ghost use Rattle.std.specs.List.Sorted.{IsStrictlyIncreasing};
ghost use Rattle.hv_bytes.specs.Standard.{most_file_bytes, standard};
ghost use Rattle.hv_task_text.specs.Canonical.{bytes_of_lines, canonical_of, entry_of, head_of};
ghost use Rattle.hv_task_text.specs.Canonical.{with_lf, HasWritableNames};
ghost use Rattle.hv_task_text.specs.Working.Canonical.{IsStored};
ghost use Rattle.hv_task_text.specs.TaskText.{TaskText};
ghost use Rattle.hv_task_text.specs.Written.{entry_lines, head_lines, name_lines};

use hv_bytes::Text;
use hv_task::{Action, AtomList, Task};
use std::alloc::{AllocError, Global};

fn write_line(text: &mut Text, line: &[u8]) -> Result<(), AllocError>
    ensures { OnOk result (text.new ≡ text.old ++ with_lf line.now) }
{
    text.push_bytes(line)?;
    text.push_bytes(b"\n")?;
    Ok(())
}

// A word and a number behind it.
fn write_number(text: &mut Text, word: &[u8], number: u64) -> Result<(), AllocError>
    ensures { OnOk result (text.new ≡ text.old ++ with_lf (word.now ++ decimal number)) }
{
    text.push_bytes(word)?;
    text.push_number(number)?;
    text.push_bytes(b"\n")?;
    Ok(())
}

fn write_cost(text: &mut Text, cost: u32) -> Result<(), AllocError>
    ensures text { OnOk result (text.new ≡ text.old ++ with_lf (codes "cost:" ++ decimal cost)) }
    ensures small { OnOk result (cost ≤ 4294967295) }
{
    write_number(text, b"cost:", u64::from(cost))
}

// A line for each atom of the set, behind the word.
fn write_atoms(text: &mut Text, word: &[u8], atoms: &AtomList) -> Result<(), AllocError>
    ensures text { OnOk result (text.new
        ≡ text.old ++ flat_map (λ n. with_lf (word.now ++ decimal n)) atoms.now) }
    ensures rises { OnOk result (IsStrictlyIncreasing atoms.now) }
{
    for place in 0..atoms.len() {
        write_number(text, word, u64::from(atoms.get(place)))?;
    }
    Ok(())
}

// A set of atoms between its two words.
fn write_set(text: &mut Text, first: &[u8], set: &AtomList, last: &[u8]) -> Result<(), AllocError>
    ensures text { OnOk result (text.new ≡ ((text.old ++ with_lf first.now)
        ++ flat_map (λ n. with_lf (decimal n)) set.now) ++ with_lf last.now) }
    ensures rises { OnOk result (IsStrictlyIncreasing set.now) }
{
    write_line(text, first)?;
    write_atoms(text, b"", set)?;
    write_line(text, last)?;
    Ok(())
}

fn write_names(text: &mut Text, task: &Task) -> Result<(), AllocError>
    ensures { OnOk result (text.new
        ≡ text.old ++ bytes_of_lines (name_lines (length task.now.names) task.now.names)) }
{
    write_number(text, b"begin_atoms:", u64::from(task.atoms()))?;
    for atom in 0..task.atoms() {
        write_line(text, task.atom_name(atom).as_bytes())?;
    }
    Ok(())
}

fn write_head(text: &mut Text, task: &Task) -> Result<(), AllocError>
    ensures text { OnOk result (text.new
        ≡ text.old ++ bytes_of_lines (head_lines (head_of task.now))) }
    ensures start { OnOk result (IsStrictlyIncreasing task.now.start) }
    ensures goal { OnOk result (IsStrictlyIncreasing task.now.goal) }
{
    write_names(text, task)?;
    write_line(text, b"end_atoms")?;
    write_set(text, b"begin_init", task.start(), b"end_init")?;
    write_set(text, b"begin_goal", task.goal(), b"end_goal")?;
    Ok(())
}

fn write_action(text: &mut Text, action: &Action) -> Result<(), AllocError>
    ensures text { OnOk result (text.new
        ≡ text.old ++ bytes_of_lines (entry_lines (entry_of action.now))) }
    ensures stored { OnOk result (IsStored action.now) }
{
    write_line(text, b"begin_action")?;
    write_line(text, action.name.as_bytes())?;
    write_cost(text, action.cost)?;
    write_atoms(text, b"PRE:", &action.pre)?;
    write_atoms(text, b"ADD:", &action.add)?;
    write_atoms(text, b"DEL:", &action.del)?;
    write_line(text, b"end_action")?;
    Ok(())
}

fn write_actions(text: &mut Text, task: &Task) -> Result<(), AllocError>
    ensures text { OnOk result (text.new ≡ text.old
        ++ flat_map (λ action. bytes_of_lines (entry_lines (entry_of action))) task.now.actions) }
    ensures stored { OnOk result (All IsStored task.now.actions) }
{
    for number in 0..task.actions() {
        write_action(text, task.action(number))?;
    }
    Ok(())
}

/// The canonical text of a task: the numbers of each list rise without repeats, the PRE lines of an
/// action come before its ADD lines and these before its DEL lines, and each line ends with an LF.
pub fn write_task(alloc: Global, task: &Task) -> Result<Text, AllocError>
    ensures text { IfOk result (λ text. text ≡ canonical_of task.now) }

    // `read_task` gives the task again
    ensures readable { IfOk result (λ text.
        HasWritableNames task.now → length text ≤ most_file_bytes
        → TaskText standard text task.now) }
{
    let mut text = Text::new(alloc);
    write_head(&mut text, task)?;
    write_number(&mut text, b"begin_actions:", u64::from(task.actions()))?;
    write_actions(&mut text, task)?;
    write_line(&mut text, b"end_actions")?;
    Ok(text)
}
