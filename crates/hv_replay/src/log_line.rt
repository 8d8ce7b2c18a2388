//! The fields of a line of a log.

ghost use Rattle.std.specs.Prelude.{◌≡◌, ◌<◌, ◌≤◌, [], IfOk, IfSome};
ghost use Rattle.hv_bytes.specs.Working.Fields.{fields_behind};
ghost use Rattle.hv_replay.specs.LogFile.{atom_in, atoms_in, kind_of_letter};
ghost use Rattle.hv_replay.specs.Working.Reading.{begun_where};

use hv_bytes::split_field;
use hv_grammar::decimal;
use hv_sets::StateListBuilder;
use std::alloc::AllocError;

/// Whether the first field of a line begins an expanded state or a pruned one, if it begins one.
pub(crate) fn kind_of_letter(field: &[u8]) -> Option<bool>
    ensures { result ≡ kind_of_letter field.now }
{
    match field {
        [b'x'] => Some(true),
        [b'p'] => Some(false),
        _ => None,
    }
}

// The atom that the field names, where it is at least the least one and below the bound.
fn atom_in(field: &[u8], least: u32, atoms: u32) -> Option<u32>
    requires { atoms ≤ 65535 }
    ensures atom { result ≡ atom_in atoms least field.now }
    ensures least { IfSome result (λ n. least ≤ n) }
    ensures below { IfSome result (λ n. n < atoms) }
{
    let number = decimal(field)?;
    if number < u64::from(least) || number >= u64::from(atoms) {
        return None;
    }
    Some(number as u32)
}

/// Puts the atoms that the fields name into the state that is begun, one by one. The answer is
/// false where they don't rise, or one isn't an atom; some of them may be in the state then.
pub(crate) fn put_atoms(
    states: &mut StateListBuilder,
    fields: Option<&[u8]>,
    atoms: u32,
) -> Result<bool, AllocError>
    requires few { atoms ≤ 65535 }
    requires none { states.old.begun ≡ [] }
    ensures put { IfOk result (λ put. begun_where put states.new
        ≡ atoms_in atoms 0 (fields_behind fields.entry (λ f. f.now))) }
    ensures others { IfOk result (λ _. states.new.whole ≡ states.old.whole) }
{
    let mut least = 0;
    let mut rest = fields;
    'fields: loop {
        let Some(line) = rest else {
            return Ok(true);
        };
        let (field, behind) = split_field(line);
        let Some(atom) = atom_in(field, least, atoms) else {
            return Ok(false);
        };
        states.put(atom)?;
        least = atom + 1;
        rest = behind;
    }
}
