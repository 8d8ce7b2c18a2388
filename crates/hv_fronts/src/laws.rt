//! That a made task is read back from its text, and what that says of the file that it was made of,
//! as contracts of functions that do nothing.

ghost use Rattle.std.specs.Prelude.{ℕ, ◌<◌, ◌↔◌, List};
ghost use Rattle.hv_bytes.specs.Standard.{standard};
ghost use Rattle.hv_task.specs.Plan.{IsUnsolvable, Solves};
ghost use Rattle.hv_task.specs.Strips.{Strips};
ghost use Rattle.hv_task_text.specs.TaskText.{TaskText};
ghost use Rattle.hv_bound.specs.Bounded.{bounded_task};
ghost use Rattle.hv_bound.specs.Costs.{IsSolvable, IsSolvableWithin, cost_of_list};
ghost use Rattle.hv_sas.specs.declared.sas_task.Sas.{Sas};
ghost use Rattle.hv_sas.specs.Made.{strips_of};
ghost use Rattle.hv_sas.specs.Meaning.{SasSolves};
ghost use Rattle.hv_fronts.specs.BoundTexts.{IsBoundText};
ghost use Rattle.hv_fronts.specs.SasTexts.{IsSasText};

/// The text of the task of a cost bound is read back as that task; and what the task that is read
/// from it says of the plans of the given one.
pub fn laws_of_bound_texts()
    ensures read_back { (file text : List ℕ) (task : Strips) (most : ℕ)
        → IsBoundText file task most text → TaskText standard text (bounded_task task most) }
    ensures solvable { (file text : List ℕ) (task made : Strips) (most : ℕ)
        → IsBoundText file task most text → TaskText standard text made
        → IsSolvable made ↔ IsSolvableWithin most task }

    // where the task that is read has no plan, each plan of the given one costs more
    ensures costs_more { (file text : List ℕ) (task made : Strips) (most : ℕ)
        → IsBoundText file task most text → TaskText standard text made → IsUnsolvable made
        → (list : List ℕ) → Solves task list → most < cost_of_list task list }
{}

/// The text of the task that a translator file makes is read back as that task; and the task that
/// is read from it has the plans of the file.
pub fn laws_of_translator_texts()
    ensures read_back { (file text : List ℕ) (sas : Sas)
        → IsSasText file sas text → TaskText standard text (strips_of sas) }
    ensures plans { (file text : List ℕ) (sas : Sas) (made : Strips)
        → IsSasText file sas text → TaskText standard text made
        → (list : List ℕ) → Solves made list ↔ SasSolves sas list }

    // where the task that is read has no plan, the file has none
    ensures unsolvable { (file text : List ℕ) (sas : Sas) (made : Strips)
        → IsSasText file sas text → TaskText standard text made → IsUnsolvable made
        → (list : List ℕ) → SasSolves sas list → ⊥ }
{}
