//! Which two literals exclude each other, since no state that is looked for has both.
//!
//! A sweep over the nodes tells it for the 64 literals of 32 atoms at once, a batch: the mask of a
//! node is a word with a bit for each of them, which is set where a path leads from the node to the
//! end that is looked for on which the literal isn't denied. The nodes that are met after another
//! literal are the same in all sweeps, and are listed once; their masks make one word of the batch.
//! So two literals cost one bit of a step for each of these nodes, in however many clauses they
//! stand.
//!
//! What isn't in the table isn't known, so it may end early: where paths pass over many places, the
//! fronts can have far more nodes than the diagram.

ghost use Rattle.std.specs.Prelude.{◌≡◌, ◌≢◌, ◌<◌, ◌+◌, ◌↔◌, [], ℕ, length, IfOk, OnOk, true};
ghost use Rattle.std.specs.Prelude.{IsTrue, slice_index};
ghost use Rattle.std.specs.Int.{bit_at};
ghost use Rattle.hv_bdd.specs.Exclusions.{AreExclusions, IsBatch, word_place};
ghost use Rattle.hv_bdd.specs.Fronts.{AreBelowBound, AreFronts};
ghost use Rattle.hv_bdd.specs.Nodes.{IsNode};
ghost use Rattle.hv_bdd.specs.Working.Excluding.{AreLandings, AreMasks, HasExclusion};
ghost use Rattle.hv_bdd.specs.Working.Excluding.{IsExcluded, IsMask};

use crate::level::NodeSide;
use crate::node_fronts::Fronts;
use hv_sets::Literal;
use std::alloc::{AllocError, Global};

/// A literal is compared with so many of those before it, the first ones.
pub(crate) const COMPARED: usize = 4;

// With more atoms a table would take much memory.
const MOST_ATOMS: u32 = 8192;

// There are so many nodes in all fronts, for each node and each atom, or the table ends early.
const MOST_MET: usize = 8;

/// Which two literals exclude each other, once that is found out.
#[derive(Drop)]
pub(crate) struct Exclusions {
    /// For each batch a word of each literal.
    pub words: Vec<Vec<u64>>,
}

impl Exclusions {
    /// Finds out which two literals no state of the node has both, or no state outside it, once so
    /// many nodes were moved that this costs no more. The answer is whether it is found out.
    pub(crate) fn learn(
        &mut self,
        side: &NodeSide<'_>,
        node: u32,
        moved: usize,
    ) -> Result<bool, AllocError>
        requires node { IsNode side.now.nodes.now node }
        requires known { AreExclusions side.now.nodes.now side.now.inside node
            self.old.words.items }
        ensures known { OnOk result
            (AreExclusions side.now.nodes.now side.now.inside node self.new.words.items) }
    {
        if !self.words.is_empty() {
            return Ok(true);
        }
        let atoms = side.nodes.atoms();
        let width = node as usize + atoms as usize * 2;
        if atoms > MOST_ATOMS || moved / (atoms as usize / 32 + 1) < width / 2 {
            return Ok(false);
        }
        let alloc = *self.words.allocator();
        self.words = words_of(alloc, side, node)?;
        Ok(true)
    }

    /// Whether it is known that a literal and one of those before it exclude each other.
    pub(crate) fn exclude(&self, earlier: &[Literal], literal: Literal) -> bool
        ensures { result ≡ true → HasExclusion self.now.words.items earlier.now literal }
    {
        if self.words.is_empty() {
            return false;
        }
        for place in 0..earlier.len().min(COMPARED) {
            let one = earlier[place];
            if is_clear(&self.words, one, literal) || is_clear(&self.words, literal, one) {
                return true;
            }
        }
        false
    }
}

// Whether the word of the second literal doesn't have the first one's bit.
fn is_clear(table: &Vec<Vec<u64>>, one: Literal, other: Literal) -> bool
    ensures { result ≡ true → IsExcluded table.now.items one other }
{
    let batch = (one.atom / 32) as usize;
    if batch >= table.len() {
        return false;
    }
    let words = &table[batch];
    let at = word_place(other);
    if at >= words.len() {
        return false;
    }
    !has_bit(words[at], one.atom % 32 * 2 + one.positive as u32)
}

// Where the word of a literal stands.
fn word_place(literal: Literal) -> usize
    ensures { result ≡ word_place literal }
{
    literal.atom as usize * 2 + literal.positive as usize
}

/// The nodes that are met after a literal.
#[derive(Drop)]
struct Landing {
    literal: Literal,
    nodes: Vec<u32>,
}

// The words of all batches.
fn words_of(alloc: Global, side: &NodeSide<'_>, node: u32) -> Result<Vec<Vec<u64>>, AllocError>
    requires { IsNode side.now.nodes.now node }
    ensures { IfOk result
        (λ table. AreExclusions side.now.nodes.now side.now.inside node table.items) }
{
    let landings = landings_of(alloc, side, node)?;
    let mut masks = Vec::new(alloc);
    let mut table = Vec::new(alloc);
    for batch in 0..side.nodes.atoms() / 32 + 1 {
        let words = batch_of(alloc, side, node, batch, landings.as_slice(), &mut masks)?;
        table.push(words)?;
    }
    Ok(table)
}

// The nodes that are met after each literal, by the places of the atoms. The front before any
// literal goes down with these.
fn landings_of(alloc: Global, side: &NodeSide<'_>, node: u32) -> Result<Vec<Landing>, AllocError>
    requires { IsNode side.now.nodes.now node }
    ensures { IfOk result
        (λ landings. AreLandings side.now.nodes.now side.now.inside node landings.items) }
{
    let mut fronts = Fronts::of(alloc, node)?;
    let mut landings = Vec::new(alloc);
    land_all(alloc, side, node, &mut fronts, &mut landings)?;
    Ok(landings)
}

// Lists them, until too many nodes are met.
fn land_all(
    alloc: Global,
    side: &NodeSide<'_>,
    node: u32,
    fronts: &mut Fronts,
    landings: &mut Vec<Landing>,
) -> Result<(), AllocError>
    requires fronts { AreFronts side.now.nodes.now side.now.inside node [] 0
        fronts.old.levels.items }
    requires landings { AreLandings side.now.nodes.now side.now.inside node landings.old.items }
    ensures { OnOk result
        (AreLandings side.now.nodes.now side.now.inside node landings.new.items) }
{
    let atoms = side.nodes.atoms();
    let most = (node as usize + atoms as usize).saturating_mul(MOST_MET);
    let mut met = 0;
    for number in 0..atoms as usize * 2 {
        if met > most {
            return Ok(());
        }
        let literal = Literal {
            atom: side.nodes.atom_at((number / 2) as u32),
            positive: number % 2 == 1,
        };
        land(alloc, side, node, literal, fronts, landings)?;
        met = fronts.levels[1].start.len().saturating_add(met);
    }
    Ok(())
}

// Lists the nodes that are met after a literal.
fn land(
    alloc: Global,
    side: &NodeSide<'_>,
    node: u32,
    literal: Literal,
    fronts: &mut Fronts,
    landings: &mut Vec<Landing>,
) -> Result<(), AllocError>
    requires atom { literal.atom < side.now.nodes.now.atoms }
    requires fronts { AreFronts side.now.nodes.now side.now.inside node [] 0
        fronts.old.levels.items }
    requires landings { AreLandings side.now.nodes.now side.now.inside node landings.old.items }
    ensures fronts { OnOk result (AreFronts side.now.nodes.now side.now.inside node [] 0
        fronts.new.levels.items) }
    ensures levels { OnOk result (1 < length fronts.new.levels.items) }
    ensures landings { OnOk result
        (AreLandings side.now.nodes.now side.now.inside node landings.new.items) }
{
    fronts.reached = 0;
    fronts.follow(side, node, &[literal])?;
    let mut nodes = Vec::new(alloc);
    nodes.extend_from_slice(fronts.levels[1].start.as_slice())?;
    landings.push(Landing { literal, nodes })?;
    Ok(())
}

// The words of a batch: which of its literals may hold beside each literal.
fn batch_of(
    alloc: Global,
    side: &NodeSide<'_>,
    node: u32,
    batch: u32,
    landings: &[Landing],
    masks: &mut Vec<u64>,
) -> Result<Vec<u64>, AllocError>
    requires node { IsNode side.now.nodes.now node }
    requires landings { AreLandings side.now.nodes.now side.now.inside node landings.now }
    ensures { IfOk result
        (λ words. IsBatch side.now.nodes.now side.now.inside node batch words.items) }
{
    sweep(side, node, batch, masks)?;
    let mut words = vec![in alloc; u64::MAX; side.nodes.atoms() as usize * 2]?;
    for k in 0..landings.len() {
        let landing = &landings[k];
        words[word_place(landing.literal)] = together(masks.as_slice(), landing.nodes.as_slice());
    }
    Ok(words)
}

// The bits that the masks of these nodes have.
fn together(masks: &[u64], nodes: &[u32]) -> u64
    requires { AreBelowBound (length masks.now) nodes.now }
    ensures { (k i : ℕ) → k < length nodes.now
        → bit_at (slice_index masks.now (slice_index nodes.now k)) i ≡ 1 → bit_at result i ≡ 1 }
{
    let mut word = 0;
    for k in 0..nodes.len() {
        word = word | masks[nodes[k] as usize];
    }
    word
}

// Makes the masks of the nodes up to this one.
fn sweep(side: &NodeSide<'_>, node: u32, batch: u32, masks: &mut Vec<u64>) -> Result<(), AllocError>
    requires node { IsNode side.now.nodes.now node }
    ensures size { OnOk result (length masks.new.items ≡ node + 1) }
    ensures masks { OnOk result
        (AreMasks side.now.nodes.now side.now.inside batch masks.new.items) }
{
    // For its contract alone: the nodes are reduced.
    let _atoms = side.nodes.atoms();
    masks.clear();
    for lesser in 0..node + 1 {
        let mask = mask_of(side, lesser, batch, masks.as_slice());
        masks.push(mask)?;
    }
    Ok(())
}

// The mask of the node behind those whose masks are there.
fn mask_of(side: &NodeSide<'_>, node: u32, batch: u32, masks: &[u64]) -> u64
    requires node { IsNode side.now.nodes.now node }
    requires size { length masks.now ≡ node }
    requires masks { AreMasks side.now.nodes.now side.now.inside batch masks.now }
    ensures { IsMask side.now.nodes.now side.now.inside batch node result }
{
    // For its contract alone: the nodes are reduced.
    let _atoms = side.nodes.atoms();
    if node < 2 {
        let good = side.inside as u32;
        return if node == good { u64::MAX } else { 0 };
    }
    let listed = side.nodes.node(node);
    let low = masks[listed.low as usize];
    let high = masks[listed.high as usize];
    if listed.atom / 32 != batch {
        return low | high;
    }
    let bit = listed.atom % 32 * 2;
    without(low, bit + 1) | without(high, bit)
}

// The word without a bit.
fn without(word: u64, bit: u32) -> u64
    requires { bit < 64 }
    ensures { (i : ℕ) → i < 64 → i ≢ bit → bit_at result i ≡ bit_at word i }
{
    word & !(1 << bit)
}

// Whether the word has a bit.
fn has_bit(word: u64, bit: u32) -> bool
    requires { bit < 64 }
    ensures { IsTrue result ↔ (bit_at word bit ≡ 1) }
{
    word & (1 << bit) != 0
}
