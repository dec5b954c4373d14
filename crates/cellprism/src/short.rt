// The short way for a row that is handed over as bytes: the columns are packed as they are read, and no row of words is made.
ghost use Rattle.std.specs.Prelude.{◌≡◌};
ghost use Rattle.strict.specs.declared.Known.TheVariants.{House};
ghost use Rattle.judge.specs.Short.{short_yes};
ghost use Rattle.cellprism.specs.Bytes.{row_of};

use field::Gf128;
use packed::bytes::RowBytes;
use strict::Known;

// Whether the row is seen to be accepted with no listing read.
#[tactic(auto, using(crate::proofs::Rules::short))]
pub fn short_yes(row: RowBytes) -> bool
    ensures { result ≡ short_yes House 1 (row_of row.entry.bytes.now) }
{
    if row.one_column() != Gf128::one() {
        return false;
    }
    let mut out = [0u64; 32];
    row.pack(&mut out) && judge::judge_words(Known::House, &out, row.output())
}
