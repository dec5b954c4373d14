// Packed words from batch order into cycle order and back, block after block of 64 columns. A block is cpi words one after the other
// in batch order, and word q of every cycle in cycle order.
ghost use Rattle.std.specs.Prelude.{◌≡◌, ◌*◌, ◌<◌, ◌≤◌, length};
ghost use Rattle.packed.specs.Storage.{by_cycle, by_batch};
ghost use Rattle.packed.specs.Order.{put_into, OrderIn, BlocksIn, Gathered};

use crate::many::put_words;
use crate::turn::{turn, unturn};

#[derive(Clone, Copy)]
pub enum Order {
    Batch,
    Cycles,
}

// Word k of each cycle from its place.
fn get_words(words: &[u64], k: usize, acc: &mut [u64])
    requires { (k < 32) × (32 * length acc.old ≤ length words.now) }
    ensures { Gathered words.now k acc.new }
{
    for (d, word) in acc.iter_mut().enumerate() {
        *word = words[32 * d + k];
    }
}

// a and b are lent, a block each.
fn blocks(order: Order, cpi: usize, words: &[u64], a: &mut [u64], b: &mut [u64], out: &mut [u64])
    requires { BlocksIn cpi words.now a.old b.old out.old }
    ensures { out.new ≡ put_into order cpi words.now }
{
    let h = cpi / 2;
    for q in 0..32 {
        let start = q * cpi;
        let end = start + cpi;
        // One match; a closure for each way was no plainer.
        match order {
            Order::Batch => {
                get_words(words, q, a);
                unturn(a, b, &mut out[start..end], h);
            }
            Order::Cycles => {
                turn(&words[start..end], a, b, h);
                put_words(a, q, out);
            }
        }
    }
}

// Words that are in the other order, put into this one. One cycle's words are in both.
pub fn put_into(order: Order, cpi: usize, words: &[u64], out: &mut [u64])
    requires { OrderIn cpi words.now out.old }
    ensures { out.new ≡ put_into order cpi words.now }
{
    if cpi == 1 {
        base::copy_at(words, out, 0);
        return;
    }
    // Room for the largest size, on the stack: nothing here allocates.
    let mut a = [0u64; 256];
    let mut b = [0u64; 256];
    blocks(order, cpi, words, &mut a[..cpi], &mut b[..cpi], out);
}
