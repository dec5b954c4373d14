// The bench page of a row, and how many bytes are lent for it.
ghost use Rattle.std.specs.Prelude.{◌≡◌};
ghost use Rattle.page.specs.Pages.{bytes_for, laid_out};
ghost use Rattle.compare.specs.Replies.{reply, chosen_relation};
ghost use Rattle.compare.specs.RowReplies.{bytes_number, page_reply};

use crate::check::{chosen_relation, refused_at};
use crate::fills::asked_number;

pub fn compare_page(
    cpi: usize,
    listing: &[u32],
    batch: &[u64],
    relation: u32,
    listing_row: usize,
    cycle: usize,
    page: &mut [u8],
) -> u64
    ensures { reply result page.new ≡ page_reply
        (laid_out cpi listing.now batch.now (chosen_relation relation) listing_row cycle page.old) }
{
    let relation = chosen_relation(relation);
    asked_number(page::lay_out(cpi, listing, batch, relation, listing_row, cycle, page))
}

pub fn compare_page_bytes(listing: &[u32], relation: u32, listing_row: usize) -> u64
    ensures { result ≡ bytes_number (bytes_for listing.now (chosen_relation relation) listing_row) }
{
    match page::page_bytes(listing, chosen_relation(relation), listing_row) {
        Ok(bytes) => bytes as u64,
        Err(r) => refused_at(r),
    }
}
