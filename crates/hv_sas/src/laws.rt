//! Which atom of the made task is which variable and value, as the contract of a function that does
//! nothing.

ghost use Rattle.std.specs.Prelude.{◌≡◌, ◌<◌, ℕ, List, slice_get};
ghost use Rattle.hv_task.specs.Strips.{IsTask};
ghost use Rattle.hv_sas.specs.declared.sas_task.Fact.{Fact};
ghost use Rattle.hv_sas.specs.declared.sas_task.Sas.{Sas};
ghost use Rattle.hv_sas.specs.declared.sas_task.SasVariable.{SasVariable};
ghost use Rattle.hv_sas.specs.Made.{fact_atom, strips_of, value_name};
ghost use Rattle.hv_sas.specs.Sound.{IsSoundSas};
ghost use Rattle.hv_sas.specs.Variables.{IsFact, values_in};

/// Does nothing: its contract states which atom of the made task is which variable and value.
pub fn laws_of_made_tasks()
    // An atom is that of one fact, and its name is that of the fact's value.
    ensures below { (variables : List SasVariable) (fact : Fact) → IsFact variables fact
        → fact_atom variables fact < values_in variables }
    ensures apart { (variables : List SasVariable) (one other : Fact)
        → IsFact variables one → IsFact variables other
        → fact_atom variables one ≡ fact_atom variables other → one ≡ other }
    ensures each { (variables : List SasVariable) (atom : ℕ) → atom < values_in variables
        → (fact : Fact) × IsFact variables fact × (fact_atom variables fact ≡ atom) }
    ensures named { (sas : Sas) (fact : Fact) → IsFact sas.variables fact
        → slice_get (strips_of sas).names (fact_atom sas.variables fact)
        ≡ value_name sas.variables fact }

    // The made task is one.
    ensures task { (sas : Sas) → IsSoundSas sas → IsTask (strips_of sas) }
{}
