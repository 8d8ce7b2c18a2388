//! The 23 derivation rules of a proof (after the proof system of Eriksson, Röger and Helmert,
//! 2018).
#![tactic(auto)]

ghost use Rattle.std.specs.Prelude.{◌↔◌, IsTrue};
ghost use Rattle.hv_task.specs.State.{AreBelow};
ghost use Rattle.hv_lines.specs.Good.{IsRuleWord};
ghost use Rattle.hv_lines.specs.Numbering.{acts_count, expr_count, known_count, SpeaksBelow};
ghost use Rattle.hv_lines.specs.Rules.{Fits};

mod dead;
mod inclusion;
pub mod laws;
mod look;
mod rule_row;
mod step;
mod unsolvable;

use dead::{fits_ed, fits_pg, fits_pi, fits_rg, fits_ri, fits_sd, fits_ud};
use hv_lines::{Premises, Statement, Table, Word};
use inclusion::{fits_di, fits_il, fits_ir, fits_si, fits_st, fits_su, fits_ul, fits_ur};
pub use laws::laws_of_rules;
use rule_row::RuleRow;
use step::{fits_at, fits_au, fits_pr, fits_pt, fits_pu, fits_rp};
use unsolvable::{fits_cg, fits_ci};

/// Whether the word names a derivation rule, and not a kind of basic statement.
pub fn is_rule(word: Word) -> bool
    ensures { IsTrue result ↔ IsRuleWord word }
{
    word.row().is_rule
}

/// Whether the rule of the word allows to conclude the statement from the premises, after the lines
/// of the table.
pub fn rule_fits(table: &Table, statement: &Statement, word: Word, premises: &Premises) -> bool
    requires word { IsRuleWord word }
    requires statement { SpeaksBelow (acts_count table.now.lines)
        (expr_count table.now.lines) statement.now }
    requires premises { AreBelow (known_count table.now.lines) premises.now }
    ensures { IsTrue result ↔ Fits table.now.lines statement.now word premises.now }
{
    let row = RuleRow {
        table,
        statement: *statement,
        premises: premises.as_slice(),
    };
    match word {
        Word::B1 | Word::B2 | Word::B3 | Word::B4 | Word::B5 => unreachable!(),
        Word::Ed => fits_ed(&row),
        Word::Ud => fits_ud(&row),
        Word::Sd => fits_sd(&row),
        Word::Pg => fits_pg(&row),
        Word::Pi => fits_pi(&row),
        Word::Rg => fits_rg(&row),
        Word::Ri => fits_ri(&row),
        Word::Ci => fits_ci(&row),
        Word::Cg => fits_cg(&row),
        Word::Ur => fits_ur(&row),
        Word::Ul => fits_ul(&row),
        Word::Ir => fits_ir(&row),
        Word::Il => fits_il(&row),
        Word::Di => fits_di(&row),
        Word::Su => fits_su(&row),
        Word::Si => fits_si(&row),
        Word::St => fits_st(&row),
        Word::At => fits_at(&row),
        Word::Au => fits_au(&row),
        Word::Pt => fits_pt(&row),
        Word::Pu => fits_pu(&row),
        Word::Pr => fits_pr(&row),
        Word::Rp => fits_rp(&row),
    }
}
