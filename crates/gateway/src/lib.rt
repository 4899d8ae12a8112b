// The library's calls for C, one function each and thin: include/vichrelka.h says how C declares them, and what each answers. The crate gateway_c exports them. A slice
// is a pointer and a length; what C owes for it is in docs/TRUST.md.
#![tactic(auto)]

ghost use Rattle.base.specs.Answer.{Tells};
ghost use Rattle.book.specs.Calls.{BlockWritten, Replays, Tidies, CountsSound};
ghost use Rattle.leases.specs.Calls.{Leases, Ends};
ghost use Rattle.listing.specs.Reading.{limit, Checks};
ghost use Rattle.dhcid.specs.Chosen.{Names};
ghost use Rattle.dhcid.specs.Dhcid as request;
ghost use Rattle.name_text.specs.Calls.{ReadsText, WritesText};
ghost use Rattle.ptr.specs.Ptr.{PtrWritten};
ghost use Rattle.records.specs.Calls.{Writes, Loads};
ghost use Rattle.reverse.specs.Sizes.{most_addresses};
ghost use Rattle.table.specs.Calls.{Adds, Removes, Clears, Finds, Counts};
ghost use Rattle.slots.specs.Sizes.{most_names};
ghost use Rattle.update.specs.Calls as update;
ghost use Rattle.update.specs.Reply.{ReadsReply};
ghost use Rattle.update.specs.declared.Kind.TheVariants.{AddFirst, AddSecond, RemoveFirst};

use base::Answer;
use update::Kind;

// uint64_t vichrelka_name(uint32_t family, uint32_t setting, const uint8_t *message, size_t message_len, const uint8_t *site, size_t site_len)
pub fn vichrelka_name(family: u32, setting: u32, message: &[u8], site: &[u8]) -> u64
    ensures { Tells result (λ a. Names family setting message.now site.now a) }
{
    dhcid::locate(family, setting, message, site).for_c()
}

// uint64_t vichrelka_dhcid(uint32_t family, uint32_t setting, const uint8_t *message, size_t message_len, const uint8_t *site, size_t site_len,
//                          uint8_t *out, size_t out_len)
pub fn vichrelka_dhcid<'a>(
    family: u32,
    setting: u32,
    message: &'a [u8],
    site: &'a [u8],
    out: &mut [u8],
) -> u64
    ensures { Tells result (λ a. request.WritesDhcid family setting message.now site.now out.old a out.new) }
{
    dhcid::put_dhcid(family, setting, message, site, out).for_c()
}

// uint64_t vichrelka_name_from_text(const uint8_t *text, size_t text_len, uint8_t *out, size_t out_len)
pub fn vichrelka_name_from_text(text: &[u8], out: &mut [u8]) -> u64
    ensures { Tells result (λ a. ReadsText text.now out.old a out.new) }
{
    name_text::read(text, out).for_c()
}

// uint64_t vichrelka_name_to_text(const uint8_t *name, size_t name_len, uint8_t *out, size_t out_len)
pub fn vichrelka_name_to_text(name: &[u8], out: &mut [u8]) -> u64
    ensures { Tells result (λ a. WritesText name.now out.old a out.new) }
{
    name_text::write(name, out).for_c()
}

// uint64_t vichrelka_listing_check(const uint8_t *text, size_t text_len)
pub fn vichrelka_listing_check(text: &[u8]) -> u64
    ensures { Tells result (λ a. Checks text.now a) }
{
    listing::check(text).for_c()
}

// uint64_t vichrelka_table_add(uint8_t *table, size_t table_len, const uint8_t *name, size_t name_len, const uint8_t *dhcid, size_t dhcid_len,
//                              uint32_t family, const uint8_t *address, size_t address_len, uint32_t policy)
pub fn vichrelka_table_add(
    table: &mut [u8],
    name: &[u8],
    dhcid: &[u8],
    family: u32,
    address: &[u8],
    policy: u32,
) -> u64
    ensures { Tells result (λ a. Adds most_names table.old name.now dhcid.now family address.now policy a table.new) }
{
    table::add(table, name, dhcid, family, address, policy).for_c()
}

// uint64_t vichrelka_table_remove(uint8_t *table, size_t table_len, const uint8_t *name, size_t name_len, const uint8_t *dhcid, size_t dhcid_len,
//                                 uint32_t family, const uint8_t *address, size_t address_len)
pub fn vichrelka_table_remove(
    table: &mut [u8],
    name: &[u8],
    dhcid: &[u8],
    family: u32,
    address: &[u8],
) -> u64
    ensures { Tells result (λ a. Removes most_names table.old name.now dhcid.now family address.now a table.new) }
{
    table::remove(table, name, dhcid, family, address).for_c()
}

// uint64_t vichrelka_table_clear(uint8_t *table, size_t table_len, const uint8_t *name, size_t name_len)
pub fn vichrelka_table_clear(table: &mut [u8], name: &[u8]) -> u64
    ensures { Tells result (λ a. Clears most_names table.old name.now a table.new) }
{
    table::clear(table, name).for_c()
}

// uint64_t vichrelka_table_find(const uint8_t *table, size_t table_len, const uint8_t *name, size_t name_len)
pub fn vichrelka_table_find(table: &[u8], name: &[u8]) -> u64
    ensures { Tells result (λ a. Finds most_names table.now name.now a) }
{
    table::find(table, name).for_c()
}

// uint64_t vichrelka_table_count(const uint8_t *table, size_t table_len)
pub fn vichrelka_table_count(table: &[u8]) -> u64
    ensures { Tells result (λ a. Counts most_names table.now a) }
{
    table::count(table).for_c()
}

// uint64_t vichrelka_table_write(const uint8_t *table, size_t table_len, uint8_t *out, size_t out_len)
pub fn vichrelka_table_write(table: &[u8], out: &mut [u8]) -> u64
    ensures { Tells result (λ a. Writes most_names table.now out.old a out.new) }
{
    table_write::write(table, out).for_c()
}

// uint64_t vichrelka_table_load(uint8_t *table, size_t table_len, const uint8_t *text, size_t text_len)
pub fn vichrelka_table_load(table: &mut [u8], text: &[u8]) -> u64
    ensures { Tells result (λ a. Loads limit most_names text.now table.old a table.new) }
{
    table_load::load(table, text).for_c()
}

// uint64_t vichrelka_book_block(const uint8_t *table, size_t table_len, const uint8_t *name, size_t name_len, uint32_t number,
//                               uint8_t *out, size_t out_len)
pub fn vichrelka_book_block(table: &[u8], name: &[u8], number: u32, out: &mut [u8]) -> u64
    ensures { Tells result (λ a. BlockWritten most_names table.now name.now number out.old a out.new) }
{
    book_block::write(table, name, number, out).for_c()
}

// uint64_t vichrelka_book_replay(uint8_t *table, size_t table_len, const uint8_t *book, size_t book_len)
pub fn vichrelka_book_replay(table: &mut [u8], book: &[u8]) -> u64
    ensures { Tells result (λ a. Replays most_names book.now table.old a table.new) }
{
    book_replay::replay(table, book).for_c()
}

// uint64_t vichrelka_book_tidy(const uint8_t *book, size_t book_len, uint8_t *out, size_t out_len)
pub fn vichrelka_book_tidy(book: &[u8], out: &mut [u8]) -> u64
    ensures { Tells result (λ a. Tidies most_names book.now out.old a out.new) }
{
    book_replay::tidy(book, out).for_c()
}

// uint64_t vichrelka_book_sound(const uint8_t *book, size_t book_len)
pub fn vichrelka_book_sound(book: &[u8]) -> u64
    ensures { Tells result (λ a. CountsSound most_names book.now a) }
{
    Answer::Accepted(book_replay::sound_blocks(book)).for_c()
}

// uint64_t vichrelka_ptr_name(uint32_t family, const uint8_t *address, size_t address_len, uint8_t *out, size_t out_len)
pub fn vichrelka_ptr_name(family: u32, address: &[u8], out: &mut [u8]) -> u64
    ensures { Tells result (λ a. PtrWritten family address.now out.old a out.new) }
{
    ptr::write(family, address, out).for_c()
}

// uint64_t vichrelka_lease(uint8_t *table, size_t table_len, uint8_t *reverse, size_t reverse_len, const uint8_t *name, size_t name_len,
//                          const uint8_t *dhcid, size_t dhcid_len, uint32_t family, const uint8_t *address, size_t address_len, uint32_t policy)
pub fn vichrelka_lease(
    table: &mut [u8],
    reverse: &mut [u8],
    name: &[u8],
    dhcid: &[u8],
    family: u32,
    address: &[u8],
    policy: u32,
) -> u64
    ensures { Tells result (λ a. Leases most_names most_addresses table.old reverse.old name.now dhcid.now family address.now policy a table.new reverse.new) }
{
    lease_calls::lease(table, reverse, name, dhcid, family, address, policy).for_c()
}

// uint64_t vichrelka_lease_end(uint8_t *table, size_t table_len, uint8_t *reverse, size_t reverse_len, const uint8_t *name, size_t name_len,
//                              const uint8_t *dhcid, size_t dhcid_len, uint32_t family, const uint8_t *address, size_t address_len)
pub fn vichrelka_lease_end(
    table: &mut [u8],
    reverse: &mut [u8],
    name: &[u8],
    dhcid: &[u8],
    family: u32,
    address: &[u8],
) -> u64
    ensures { Tells result (λ a. Ends most_names most_addresses table.old reverse.old name.now dhcid.now family address.now a table.new reverse.new) }
{
    lease_calls::end(table, reverse, name, dhcid, family, address).for_c()
}

// uint64_t vichrelka_update_add_first(uint16_t id, const uint8_t *zone, size_t zone_len, const uint8_t *name, size_t name_len,
//                                     const uint8_t *dhcid, size_t dhcid_len, uint32_t family, const uint8_t *address, size_t address_len, uint8_t *out, size_t out_len)
pub fn vichrelka_update_add_first(
    id: u16,
    zone: &[u8],
    name: &[u8],
    dhcid: &[u8],
    family: u32,
    address: &[u8],
    out: &mut [u8],
) -> u64
    ensures { Tells result (λ a. update.Writes AddFirst id zone.now name.now dhcid.now family address.now out.old a out.new) }
{
    update::call::write(Kind::AddFirst, id, zone, name, dhcid, family, address, out).for_c()
}

// uint64_t vichrelka_update_add_second(uint16_t id, const uint8_t *zone, size_t zone_len, const uint8_t *name, size_t name_len,
//                                      const uint8_t *dhcid, size_t dhcid_len, uint32_t family, const uint8_t *address, size_t address_len, uint8_t *out, size_t out_len)
pub fn vichrelka_update_add_second(
    id: u16,
    zone: &[u8],
    name: &[u8],
    dhcid: &[u8],
    family: u32,
    address: &[u8],
    out: &mut [u8],
) -> u64
    ensures { Tells result (λ a. update.Writes AddSecond id zone.now name.now dhcid.now family address.now out.old a out.new) }
{
    update::call::write(Kind::AddSecond, id, zone, name, dhcid, family, address, out).for_c()
}

// uint64_t vichrelka_update_remove_first(uint16_t id, const uint8_t *zone, size_t zone_len, const uint8_t *name, size_t name_len,
//                                        const uint8_t *dhcid, size_t dhcid_len, uint32_t family, const uint8_t *address, size_t address_len, uint8_t *out, size_t out_len)
pub fn vichrelka_update_remove_first(
    id: u16,
    zone: &[u8],
    name: &[u8],
    dhcid: &[u8],
    family: u32,
    address: &[u8],
    out: &mut [u8],
) -> u64
    ensures { Tells result (λ a. update.Writes RemoveFirst id zone.now name.now dhcid.now family address.now out.old a out.new) }
{
    update::call::write(
        Kind::RemoveFirst,
        id,
        zone,
        name,
        dhcid,
        family,
        address,
        out,
    )
    .for_c()
}

// uint64_t vichrelka_update_remove_second(uint16_t id, const uint8_t *zone, size_t zone_len, const uint8_t *name, size_t name_len,
//                                         const uint8_t *dhcid, size_t dhcid_len, uint8_t *out, size_t out_len)
pub fn vichrelka_update_remove_second(
    id: u16,
    zone: &[u8],
    name: &[u8],
    dhcid: &[u8],
    out: &mut [u8],
) -> u64
    ensures { Tells result (λ a. update.WritesLast id zone.now name.now dhcid.now out.old a out.new) }
{
    update::call::write_last(id, zone, name, dhcid, out).for_c()
}

// uint64_t vichrelka_update_answer(uint16_t id, const uint8_t *answer, size_t answer_len)
pub fn vichrelka_update_answer(id: u16, answer: &[u8]) -> u64
    ensures { Tells result (λ a. ReadsReply id answer.now a) }
{
    update::reply::read(id, answer).for_c()
}
