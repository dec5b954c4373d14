// The strict flag listing (document 02, request 6), and the listings that are known by name.
#![tactic(auto)]

mod table;

ghost use Rattle.std.specs.Prelude.{true, ◌↔◌, ◌≡◌, length};
ghost use Rattle.circuit.specs.declared.Relation.TheVariants.{Bin};
ghost use Rattle.strict.specs.Rows.{strict_words};
ghost use Rattle.strict.specs.Known.{listing_of, rows_each};

use crate::table::STRICT;
use circuit::Relation;

// A listing that is known by name, so that none has to be lent.
#[derive(Clone, Copy)]
pub enum Known {
    House,
    Strict,
}

// The strict listing.
pub fn build_strict() -> [u32; 3529]
    ensures { result ≡ strict_words }
{
    STRICT
}

// How many words the listing that is named has.
fn words_in(which: Known) -> usize
    ensures { result ≡ length (listing_of which) }
{
    match which {
        Known::House => 3499,
        Known::Strict => 3529,
    }
}

// Whether a listing is the one that is named, word by word. One of another length makes no table. Two arms, as the tables are arrays of
// two lengths.
pub fn is_known(which: Known, listing: &[u32]) -> bool
    ensures { (result ≡ true) ↔ (listing.now ≡ listing_of which) }
{
    if listing.len() != words_in(which) {
        return false;
    }
    match which {
        Known::House => {
            let table = circuit::build_circuit();
            base::same_words(listing, &table)
        }
        Known::Strict => {
            let table = build_strict();
            base::same_words(listing, &table)
        }
    }
}

fn bins_each(which: Known) -> u32
    ensures { result ≡ rows_each which Bin }
{
    match which {
        Known::House => 483,
        Known::Strict => 491,
    }
}

// How many rows it has of a relation.
pub fn rows_each(which: Known, relation: Relation) -> u32
    ensures { result ≡ rows_each which relation }
{
    match relation {
        Relation::Bin => bins_each(which),
        Relation::Fld => 31,
    }
}
