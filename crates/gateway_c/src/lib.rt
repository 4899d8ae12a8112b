// The exports of the library for C: include/vichrelka.h says how C declares them, and what each answers. Each calls the function of the same name in `gateway`, where
// its work stands, and promises the same. A slice is a pointer and a length; what C owes for it is in docs/TRUST.md.
#![tactic(auto)]

ghost use Rattle.base.specs.Answer.{Tells};
ghost use Rattle.book.specs.Calls.{BlockWritten, Replays, Tidies, CountsSound};
ghost use Rattle.leases.specs.Calls.{Leases, Ends};
ghost use Rattle.listing.specs.Reading.{limit, Checks};
ghost use Rattle.dhcid.specs.Chosen.{Names};
ghost use Rattle.dhcid.specs.Dhcid as request;
ghost use Rattle.name_text.specs.Calls.{ReadsText, WritesText};
ghost use Rattle.ptr.specs.Ptr.{PtrWritten};
ghost use Rattle.records.specs.Calls.{Writes, Loads};
ghost use Rattle.reverse.specs.Sizes.{most_addresses};
ghost use Rattle.table.specs.Calls.{Adds, Removes, Clears, Finds, Counts};
ghost use Rattle.slots.specs.Sizes.{most_names};
ghost use Rattle.update.specs.Calls as update;
ghost use Rattle.update.specs.Reply.{ReadsReply};
ghost use Rattle.update.specs.declared.Kind.TheVariants.{AddFirst, AddSecond, RemoveFirst};

// uint64_t vichrelka_name(uint32_t family, uint32_t setting, const uint8_t *message, size_t message_len, const uint8_t *site, size_t site_len)
#[unsafe(no_mangle)]
pub extern "C" fn vichrelka_name(family: u32, setting: u32, message: &[u8], site: &[u8]) -> u64
    ensures { Tells result (λ a. Names family setting message.now site.now a) }
{
    gateway::vichrelka_name(family, setting, message, site)
}

// uint64_t vichrelka_dhcid(uint32_t family, uint32_t setting, const uint8_t *message, size_t message_len, const uint8_t *site, size_t site_len,
//                          uint8_t *out, size_t out_len)
#[unsafe(no_mangle)]
pub extern "C" fn vichrelka_dhcid<'a>(
    family: u32,
    setting: u32,
    message: &'a [u8],
    site: &'a [u8],
    out: &mut [u8],
) -> u64
    ensures { Tells result (λ a. request.WritesDhcid family setting message.now site.now out.old a out.new) }
{
    gateway::vichrelka_dhcid(family, setting, message, site, out)
}

// uint64_t vichrelka_name_from_text(const uint8_t *text, size_t text_len, uint8_t *out, size_t out_len)
#[unsafe(no_mangle)]
pub extern "C" fn vichrelka_name_from_text(text: &[u8], out: &mut [u8]) -> u64
    ensures { Tells result (λ a. ReadsText text.now out.old a out.new) }
{
    gateway::vichrelka_name_from_text(text, out)
}

// uint64_t vichrelka_name_to_text(const uint8_t *name, size_t name_len, uint8_t *out, size_t out_len)
#[unsafe(no_mangle)]
pub extern "C" fn vichrelka_name_to_text(name: &[u8], out: &mut [u8]) -> u64
    ensures { Tells result (λ a. WritesText name.now out.old a out.new) }
{
    gateway::vichrelka_name_to_text(name, out)
}

// uint64_t vichrelka_listing_check(const uint8_t *text, size_t text_len)
#[unsafe(no_mangle)]
pub extern "C" fn vichrelka_listing_check(text: &[u8]) -> u64
    ensures { Tells result (λ a. Checks text.now a) }
{
    gateway::vichrelka_listing_check(text)
}

// uint64_t vichrelka_table_add(uint8_t *table, size_t table_len, const uint8_t *name, size_t name_len, const uint8_t *dhcid, size_t dhcid_len,
//                              uint32_t family, const uint8_t *address, size_t address_len, uint32_t policy)
#[unsafe(no_mangle)]
pub extern "C" fn vichrelka_table_add(
    table: &mut [u8],
    name: &[u8],
    dhcid: &[u8],
    family: u32,
    address: &[u8],
    policy: u32,
) -> u64
    ensures { Tells result (λ a. Adds most_names table.old name.now dhcid.now family address.now policy a table.new) }
{
    gateway::vichrelka_table_add(table, name, dhcid, family, address, policy)
}

// uint64_t vichrelka_table_remove(uint8_t *table, size_t table_len, const uint8_t *name, size_t name_len, const uint8_t *dhcid, size_t dhcid_len,
//                                 uint32_t family, const uint8_t *address, size_t address_len)
#[unsafe(no_mangle)]
pub extern "C" fn vichrelka_table_remove(
    table: &mut [u8],
    name: &[u8],
    dhcid: &[u8],
    family: u32,
    address: &[u8],
) -> u64
    ensures { Tells result (λ a. Removes most_names table.old name.now dhcid.now family address.now a table.new) }
{
    gateway::vichrelka_table_remove(table, name, dhcid, family, address)
}

// uint64_t vichrelka_table_clear(uint8_t *table, size_t table_len, const uint8_t *name, size_t name_len)
#[unsafe(no_mangle)]
pub extern "C" fn vichrelka_table_clear(table: &mut [u8], name: &[u8]) -> u64
    ensures { Tells result (λ a. Clears most_names table.old name.now a table.new) }
{
    gateway::vichrelka_table_clear(table, name)
}

// uint64_t vichrelka_table_find(const uint8_t *table, size_t table_len, const uint8_t *name, size_t name_len)
#[unsafe(no_mangle)]
pub extern "C" fn vichrelka_table_find(table: &[u8], name: &[u8]) -> u64
    ensures { Tells result (λ a. Finds most_names table.now name.now a) }
{
    gateway::vichrelka_table_find(table, name)
}

// uint64_t vichrelka_table_count(const uint8_t *table, size_t table_len)
#[unsafe(no_mangle)]
pub extern "C" fn vichrelka_table_count(table: &[u8]) -> u64
    ensures { Tells result (λ a. Counts most_names table.now a) }
{
    gateway::vichrelka_table_count(table)
}

// uint64_t vichrelka_table_write(const uint8_t *table, size_t table_len, uint8_t *out, size_t out_len)
#[unsafe(no_mangle)]
pub extern "C" fn vichrelka_table_write(table: &[u8], out: &mut [u8]) -> u64
    ensures { Tells result (λ a. Writes most_names table.now out.old a out.new) }
{
    gateway::vichrelka_table_write(table, out)
}

// uint64_t vichrelka_table_load(uint8_t *table, size_t table_len, const uint8_t *text, size_t text_len)
#[unsafe(no_mangle)]
pub extern "C" fn vichrelka_table_load(table: &mut [u8], text: &[u8]) -> u64
    ensures { Tells result (λ a. Loads limit most_names text.now table.old a table.new) }
{
    gateway::vichrelka_table_load(table, text)
}

// uint64_t vichrelka_book_block(const uint8_t *table, size_t table_len, const uint8_t *name, size_t name_len, uint32_t number,
//                               uint8_t *out, size_t out_len)
#[unsafe(no_mangle)]
pub extern "C" fn vichrelka_book_block(
    table: &[u8],
    name: &[u8],
    number: u32,
    out: &mut [u8],
) -> u64
    ensures { Tells result (λ a. BlockWritten most_names table.now name.now number out.old a out.new) }
{
    gateway::vichrelka_book_block(table, name, number, out)
}

// uint64_t vichrelka_book_replay(uint8_t *table, size_t table_len, const uint8_t *book, size_t book_len)
#[unsafe(no_mangle)]
pub extern "C" fn vichrelka_book_replay(table: &mut [u8], book: &[u8]) -> u64
    ensures { Tells result (λ a. Replays most_names book.now table.old a table.new) }
{
    gateway::vichrelka_book_replay(table, book)
}

// uint64_t vichrelka_book_tidy(const uint8_t *book, size_t book_len, uint8_t *out, size_t out_len)
#[unsafe(no_mangle)]
pub extern "C" fn vichrelka_book_tidy(book: &[u8], out: &mut [u8]) -> u64
    ensures { Tells result (λ a. Tidies most_names book.now out.old a out.new) }
{
    gateway::vichrelka_book_tidy(book, out)
}

// uint64_t vichrelka_book_sound(const uint8_t *book, size_t book_len)
#[unsafe(no_mangle)]
pub extern "C" fn vichrelka_book_sound(book: &[u8]) -> u64
    ensures { Tells result (λ a. CountsSound most_names book.now a) }
{
    gateway::vichrelka_book_sound(book)
}

// uint64_t vichrelka_ptr_name(uint32_t family, const uint8_t *address, size_t address_len, uint8_t *out, size_t out_len)
#[unsafe(no_mangle)]
pub extern "C" fn vichrelka_ptr_name(family: u32, address: &[u8], out: &mut [u8]) -> u64
    ensures { Tells result (λ a. PtrWritten family address.now out.old a out.new) }
{
    gateway::vichrelka_ptr_name(family, address, out)
}

// uint64_t vichrelka_lease(uint8_t *table, size_t table_len, uint8_t *reverse, size_t reverse_len, const uint8_t *name, size_t name_len,
//                          const uint8_t *dhcid, size_t dhcid_len, uint32_t family, const uint8_t *address, size_t address_len, uint32_t policy)
#[unsafe(no_mangle)]
pub extern "C" fn vichrelka_lease(
    table: &mut [u8],
    reverse: &mut [u8],
    name: &[u8],
    dhcid: &[u8],
    family: u32,
    address: &[u8],
    policy: u32,
) -> u64
    ensures { Tells result (λ a. Leases most_names most_addresses table.old reverse.old name.now dhcid.now family address.now policy a table.new reverse.new) }
{
    gateway::vichrelka_lease(table, reverse, name, dhcid, family, address, policy)
}

// uint64_t vichrelka_lease_end(uint8_t *table, size_t table_len, uint8_t *reverse, size_t reverse_len, const uint8_t *name, size_t name_len,
//                              const uint8_t *dhcid, size_t dhcid_len, uint32_t family, const uint8_t *address, size_t address_len)
#[unsafe(no_mangle)]
pub extern "C" fn vichrelka_lease_end(
    table: &mut [u8],
    reverse: &mut [u8],
    name: &[u8],
    dhcid: &[u8],
    family: u32,
    address: &[u8],
) -> u64
    ensures { Tells result (λ a. Ends most_names most_addresses table.old reverse.old name.now dhcid.now family address.now a table.new reverse.new) }
{
    gateway::vichrelka_lease_end(table, reverse, name, dhcid, family, address)
}

// uint64_t vichrelka_update_add_first(uint16_t id, const uint8_t *zone, size_t zone_len, const uint8_t *name, size_t name_len,
//                                     const uint8_t *dhcid, size_t dhcid_len, uint32_t family, const uint8_t *address, size_t address_len, uint8_t *out, size_t out_len)
#[unsafe(no_mangle)]
pub extern "C" fn vichrelka_update_add_first(
    id: u16,
    zone: &[u8],
    name: &[u8],
    dhcid: &[u8],
    family: u32,
    address: &[u8],
    out: &mut [u8],
) -> u64
    ensures { Tells result (λ a. update.Writes AddFirst id zone.now name.now dhcid.now family address.now out.old a out.new) }
{
    gateway::vichrelka_update_add_first(id, zone, name, dhcid, family, address, out)
}

// uint64_t vichrelka_update_add_second(uint16_t id, const uint8_t *zone, size_t zone_len, const uint8_t *name, size_t name_len,
//                                      const uint8_t *dhcid, size_t dhcid_len, uint32_t family, const uint8_t *address, size_t address_len, uint8_t *out, size_t out_len)
#[unsafe(no_mangle)]
pub extern "C" fn vichrelka_update_add_second(
    id: u16,
    zone: &[u8],
    name: &[u8],
    dhcid: &[u8],
    family: u32,
    address: &[u8],
    out: &mut [u8],
) -> u64
    ensures { Tells result (λ a. update.Writes AddSecond id zone.now name.now dhcid.now family address.now out.old a out.new) }
{
    gateway::vichrelka_update_add_second(id, zone, name, dhcid, family, address, out)
}

// uint64_t vichrelka_update_remove_first(uint16_t id, const uint8_t *zone, size_t zone_len, const uint8_t *name, size_t name_len,
//                                        const uint8_t *dhcid, size_t dhcid_len, uint32_t family, const uint8_t *address, size_t address_len, uint8_t *out, size_t out_len)
#[unsafe(no_mangle)]
pub extern "C" fn vichrelka_update_remove_first(
    id: u16,
    zone: &[u8],
    name: &[u8],
    dhcid: &[u8],
    family: u32,
    address: &[u8],
    out: &mut [u8],
) -> u64
    ensures { Tells result (λ a. update.Writes RemoveFirst id zone.now name.now dhcid.now family address.now out.old a out.new) }
{
    gateway::vichrelka_update_remove_first(id, zone, name, dhcid, family, address, out)
}

// uint64_t vichrelka_update_remove_second(uint16_t id, const uint8_t *zone, size_t zone_len, const uint8_t *name, size_t name_len,
//                                         const uint8_t *dhcid, size_t dhcid_len, uint8_t *out, size_t out_len)
#[unsafe(no_mangle)]
pub extern "C" fn vichrelka_update_remove_second(
    id: u16,
    zone: &[u8],
    name: &[u8],
    dhcid: &[u8],
    out: &mut [u8],
) -> u64
    ensures { Tells result (λ a. update.WritesLast id zone.now name.now dhcid.now out.old a out.new) }
{
    gateway::vichrelka_update_remove_second(id, zone, name, dhcid, out)
}

// uint64_t vichrelka_update_answer(uint16_t id, const uint8_t *answer, size_t answer_len)
#[unsafe(no_mangle)]
pub extern "C" fn vichrelka_update_answer(id: u16, answer: &[u8]) -> u64
    ensures { Tells result (λ a. ReadsReply id answer.now a) }
{
    gateway::vichrelka_update_answer(id, answer)
}
