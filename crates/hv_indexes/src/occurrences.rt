//! Where the literals of clauses are.
//!
//! Occurrences are kept by sign: a literal on the trail can only make its opposite false, so the
//! clauses that have the literal itself need no second look, and in a formula of negative pairs no
//! literal that becomes false is followed at all. For each sign the places of the clauses are in
//! one list by rising atoms, made once, eight bytes a literal, with where those of each atom begin
//! (`rows`).
//!
//! A proof can have hundreds of thousands of formulas of one literal, or of none. The lists of such
//! a one are of length one at most, so they lie in the value itself and take no block of memory;
//! those of all others take a small one together, and one each. Whoever looks up is lent the lists
//! (`signed`), and doesn't see where they lie.

ghost use Rattle.std.specs.Prelude.{◌≡◌, ◌≤◌, ◌∷◌, ◌^◌, [], List, IfOk, length, min, slice_range};
ghost use Rattle.std.specs.Prelude.{Bool, false, true, slice_index_or};
ghost use Rattle.std.specs.List.{All};
ghost use Rattle.hv_sets.specs.declared.literal.Literal.{Literal};
ghost use Rattle.hv_sets.specs.Cubes.{SpeakBelow};
ghost use Rattle.hv_indexes.specs.Working.Occurrences.{kept_rows};
ghost use Rattle.hv_indexes.specs.Working.Rows.{ListsCodes};
ghost use Rattle.hv_indexes.specs.Working.Signed.{IsSignedCode};
ghost use Rattle.hv_indexes.specs.Working.Pairs.{AreEntryPairs};
ghost use Rattle.hv_indexes.specs.Occurrences.{AreOccurrences, AreStanding, IsIndexOf};
ghost use Rattle.hv_indexes.specs.Occurrences.{lent_rows, listed_rows, lone_rows, no_rows, signed};

use crate::counted::sort_by_keys;
use crate::partners::EntryPair;
use crate::rows::RowHead;
use crate::{partners, rows, signed};
use hv_sets::{Clauses, Literal};
use std::alloc::{AllocError, Global};

/// Where the literals of one sign stand: by rising atoms the places of the clauses with a literal
/// of the atom, each once, and where those of each atom begin. At the same place of another list
/// stands the other literal of a clause of two; from the end of that list on there is none.
#[derive(Clone, Copy, Drop)]
pub struct SignedOccurrences<'a> {
    pub heads: &'a [RowHead],
    pub places: &'a [usize],
    pub partners: &'a [u32],
}

/// The lists of the literals of one sign, before those of both are put together.
#[derive(Drop)]
pub(crate) struct SignedLists {
    heads: Vec<RowHead>,
    places: Vec<usize>,
    partners: Vec<u32>,
}

/// Where the literals of one sign stand, but for what is beside them.
#[derive(Drop)]
pub struct SignedPlaces {
    heads: Vec<RowHead>,
    places: Vec<usize>,
}

/// The lists for each sign. What is beside the literals is in one list: first for each place of a
/// negative literal, and then for those of the positive ones; it ends with the last entry for a
/// literal. So a value takes 120 bytes. The C library joins larger blocks where they are freed, and
/// in a proof of many small formulas that took up to a third of the time.
#[derive(Drop)]
pub struct ListedOccurrences {
    negative: SignedPlaces,
    positive: SignedPlaces,
    partners: Vec<u32>,
}

/// Where the literals of clauses stand, for each sign.
#[derive(Drop)]
pub enum Occurrences {
    /// The lists of clauses.
    Listed(Box<ListedOccurrences>),
    /// The one clause is a negative literal, and this is the list of where those of its atom begin.
    Negative([RowHead; 1]),
    /// The same of a positive literal.
    Positive([RowHead; 1]),
    /// No clause has a literal.
    Nowhere,
}

/// Where one literal stands.
#[derive(Drop)]
pub struct Standing<'a> {
    /// The literal.
    pub literal: Literal,
    /// The places of the clauses, which rise.
    pub places: &'a [usize],
    /// The entries for the literals beside it, as far as there are any.
    pub entries: &'a [u32],
}

impl Occurrences {
    /// Where the literals of these clauses stand. More than 2^32 literals of one sign are taken as
    /// out of memory; a line has fewer than 8,388,608 literals.
    pub fn new(alloc: Global, clauses: &Clauses) -> Result<Occurrences, AllocError>
        requires few { length clauses.now ≤ 2 ^ 32 }
        requires below { All (SpeakBelow (2 ^ 31)) clauses.now }
        ensures { IfOk result (IsIndexOf clauses.now) }
    {
        let codes = signed::codes_of(alloc, clauses)?;
        if codes.is_empty() {
            return Ok(Occurrences::Nowhere);
        }
        let pairs = partners::pairs_of(alloc, clauses)?;
        let negative = SignedLists::new(alloc, clauses, &pairs, false, codes.negative)?;
        let positive = SignedLists::new(alloc, clauses, &pairs, true, codes.positive)?;
        let listed = ListedOccurrences::of(negative, positive)?;
        Ok(Occurrences::Listed(Box::new(alloc, listed)?))
    }

    /// Where a literal stands that is the one clause. It takes no memory.
    pub fn of_lone(literal: Literal) -> Occurrences
        ensures { IsIndexOf ((literal ∷ []) ∷ []) result }
    {
        let head = RowHead {
            key: literal.atom,
            start: 0,
        };
        if literal.positive {
            Occurrences::Positive([head])
        } else {
            Occurrences::Negative([head])
        }
    }

    /// Where a literal stands.
    #[inline(always)]
    pub fn standing(&self, literal: Literal) -> Standing<'_>
        requires { (clauses : List (List Literal)) × IsIndexOf clauses self.now }
        ensures literal { result.literal ≡ literal }
        ensures standing { (clauses : List (List Literal)) → IsIndexOf clauses self.now
            → AreStanding clauses result }
    {
        self.signed(literal.positive).standing(literal)
    }

    /// Where the literals of one sign stand.
    #[inline(always)]
    pub fn signed(&self, sign: bool) -> SignedOccurrences<'_>
        ensures { lent_rows result ≡ signed self.now sign }
    {
        match self {
            Occurrences::Listed(listed) => listed.lent(sign),
            Occurrences::Negative(heads) => { if sign { nowhere() } else { alone(heads) } }
            Occurrences::Positive(heads) => { if sign { alone(heads) } else { nowhere() } }
            Occurrences::Nowhere => nowhere(),
        }
    }
}

// Where no literal of the sign stands.
#[inline(always)]
fn nowhere<'a>() -> SignedOccurrences<'a>
    ensures { lent_rows result ≡ no_rows }
{
    SignedOccurrences {
        heads: &[],
        places: &[],
        partners: &[],
    }
}

// Where the literal with this head stands, which is the first clause.
#[inline(always)]
fn alone(heads: &[RowHead]) -> SignedOccurrences<'_>
    ensures { lent_rows result ≡ lone_rows heads.now }
{
    SignedOccurrences {
        heads,
        places: &[0],
        partners: &[],
    }
}

impl ListedOccurrences {
    // The lists of both signs.
    fn of(negative: SignedLists, positive: SignedLists) -> Result<ListedOccurrences, AllocError>
        requires { length negative.partners.items ≤ length negative.places.items }
        ensures { IfOk result (λ listed. (clauses : List (List Literal))
            → AreOccurrences false clauses (kept_rows negative)
            → AreOccurrences true clauses (kept_rows positive)
            → (sign : Bool) → AreOccurrences sign clauses (listed_rows listed sign)) }
    {
        let upto = negative.places.len();
        let partners = partners::joined(negative.partners, upto, positive.partners)?;
        Ok(ListedOccurrences {
            negative: SignedPlaces {
                heads: negative.heads,
                places: negative.places,
            },
            positive: SignedPlaces {
                heads: positive.heads,
                places: positive.places,
            },
            partners,
        })
    }

    // The lists for the literals of one sign, lent.
    #[inline(always)]
    fn lent(&self, sign: bool) -> SignedOccurrences<'_>
        ensures { lent_rows result ≡ listed_rows self.now sign }
    {
        let end = self.negative.places.len().min(self.partners.len());
        if sign {
            SignedOccurrences {
                heads: &self.positive.heads,
                places: &self.positive.places,
                partners: &self.partners[end..],
            }
        } else {
            SignedOccurrences {
                heads: &self.negative.heads,
                places: &self.negative.places,
                partners: &self.partners[..end],
            }
        }
    }
}

impl SignedLists {
    // Where the literals of this sign stand, which have these codes.
    fn new(
        alloc: Global,
        clauses: &Clauses,
        pairs: &[EntryPair],
        sign: bool,
        codes: Vec<usize>,
    ) -> Result<SignedLists, AllocError>
        requires few { length clauses.now ≤ 2 ^ 32 }
        requires below { All (SpeakBelow (2 ^ 31)) clauses.now }
        requires pairs { AreEntryPairs clauses.now pairs.now }
        requires codes { ListsCodes (λ k. IsSignedCode sign (slice_index_or clauses.now k []) k)
            (length clauses.now) codes.items }
        ensures rows { IfOk result (λ lists. AreOccurrences sign clauses.now (kept_rows lists)) }
        ensures few { IfOk result
            (λ lists. length lists.partners.items ≤ length lists.places.items) }
    {
        if codes.is_empty() {
            return Ok(SignedLists::none(alloc));
        }
        let mut places = codes;
        sort_by_keys(alloc, &mut places)?;
        let heads = rows::heads_of(alloc, &places)?;
        let partners = partners::entries_of(alloc, clauses, pairs, &places, sign)?;
        rows::strip(&mut places);
        Ok(SignedLists {
            heads,
            places,
            partners,
        })
    }

    // The lists where no literal of the sign stands.
    fn none(alloc: Global) -> SignedLists
        ensures { kept_rows result ≡ no_rows }
    {
        SignedLists {
            heads: Vec::new(alloc),
            places: Vec::new(alloc),
            partners: Vec::new(alloc),
        }
    }
}

impl<'a> SignedOccurrences<'a> {
    // Where a literal of this sign stands.
    #[inline(always)]
    fn standing(&self, literal: Literal) -> Standing<'a>
        requires { (clauses : List (List Literal))
            × AreOccurrences literal.positive clauses (lent_rows self.now) }
        ensures literal { result.literal ≡ literal }
        ensures standing { (clauses : List (List Literal))
            → AreOccurrences literal.positive clauses (lent_rows self.now)
            → AreStanding clauses result }
    {
        let own = rows::part_of(self.heads, self.places.len(), literal.atom);
        Standing {
            literal,
            places: &self.places[own.from..own.upto],
            entries: part(self.partners, own.from, own.upto),
        }
    }
}

// The part of the entries between two places, as far as they go.
fn part(entries: &[u32], from: usize, upto: usize) -> &[u32]
    requires { from ≤ upto }
    ensures { result.now ≡ slice_range entries.now (min from (length entries.now))
        (min upto (length entries.now)) }
{
    &entries[from.min(entries.len())..upto.min(entries.len())]
}
