// The bench page of a row, and how many bytes are lent for it.
ghost use Rattle.std.specs.Prelude.{◌≡◌};
ghost use Rattle.page.specs.Pages.{bytes_for, laid_out};
ghost use Rattle.compare.specs.Replies.{reply, chosen_relation};
ghost use Rattle.compare.specs.RowReplies.{bytes_number, page_reply};

#[unsafe(no_mangle)]
pub extern "C" fn compare_page(
    cpi: usize,
    listing: &[u32],
    batch: &[u64],
    relation: u32,
    listing_row: usize,
    cycle: usize,
    page: &mut [u8],
) -> u64
    ensures { reply result page.new ≡ page_reply
        (laid_out cpi listing.now batch.now (chosen_relation relation) listing_row cycle page.old) }
{
    compare::pages::compare_page(cpi, listing, batch, relation, listing_row, cycle, page)
}

#[unsafe(no_mangle)]
pub extern "C" fn compare_page_bytes(listing: &[u32], relation: u32, listing_row: usize) -> u64
    ensures { result ≡ bytes_number (bytes_for listing.now (chosen_relation relation) listing_row) }
{
    compare::pages::compare_page_bytes(listing, relation, listing_row)
}
