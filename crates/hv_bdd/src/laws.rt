//! That a file has one answer, and what it is, as contracts of functions that do nothing.

ghost use Rattle.std.specs.Prelude.{◌≡◌, ◌<◌, ◌+◌, ◌^◌, [], ℕ, List, length};
ghost use Rattle.hv_bytes.specs.Pieces.{PieceBytes};
ghost use Rattle.hv_grammar.specs.Parsers.{parsed};
ghost use Rattle.hv_bdd.specs.NodeFile.{node_file};
ghost use Rattle.hv_bdd.specs.NodeText.{AreNodeTextOf, HasNodesFault};
ghost use Rattle.hv_bdd.specs.Nodes.{NodeList};
ghost use Rattle.hv_bdd.specs.declared.fault.NodesFault.{NodesFault};

/// The pieces of a node file have one answer: they are the text of one list at most, a text has no
/// fault, and the first fault is one.
pub fn one_answer()
    ensures one_list { (atoms : ℕ) (pieces : List PieceBytes) (s t : NodeList)
        → atoms < 2 ^ 32 → AreNodeTextOf atoms pieces s → AreNodeTextOf atoms pieces t → s ≡ t }
    ensures text_or_fault { (atoms : ℕ) (pieces : List PieceBytes) (list : NodeList) (fault :
        NodesFault)
        → atoms < 2 ^ 32 → AreNodeTextOf atoms pieces list → HasNodesFault atoms pieces fault → ⊥ }
    ensures one_fault { (atoms : ℕ) (pieces : List PieceBytes) (f g : NodesFault)
        → atoms < 2 ^ 32 → HasNodesFault atoms pieces f → HasNodesFault atoms pieces g → f ≡ g }
{}

/// What comes of a node file is a list exactly where the file is the text of this list.
pub fn text_by_lines()
    ensures text { (atoms : ℕ) (pieces : List PieceBytes) (list : NodeList) → atoms < 2 ^ 32
        → AreNodeTextOf atoms pieces list
        → node_file atoms 0 pieces ≡ parsed list (length pieces) [] }
    ensures value { (atoms : ℕ) (pieces : List PieceBytes) (list : NodeList) (n : ℕ)
        (rest : List PieceBytes) → node_file atoms 0 pieces ≡ parsed list n rest
        → AreNodeTextOf atoms pieces list }
{}
