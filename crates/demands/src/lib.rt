// The calls for C once more, each with the customer's demands as its promise beside its own. So the demands are proved of the code, and not of definitions that might
// have drifted from it: each function calls the one that ships, with whatever it is given. None of this is in the archive. The row call is called with a row of four
// places, since the borrow checker does not cover a lent row of any length; of every row `demand_3` is about the row call's promise. The last functions prove the power
// cut of code: a run on stored sides that is cut, and the same again.
#![tactic(auto)]

ghost use Rattle.std.specs.Prelude.{◌≡◌, length};
ghost use Rattle.base.specs.Answer.{Tells};
ghost use Rattle.slots.specs.Sizes.{most_names};
ghost use Rattle.reverse.specs.Sizes.{most_addresses};
ghost use Rattle.leases.specs.Calls.{Leases, Ends};
ghost use Rattle.demands.specs.Demand3.{Demanded};
ghost use Rattle.demands.specs.Told as spec;

use base::slice::put;
use entry::Record;
use gateway::{
    vichrelka_book_block, vichrelka_book_replay, vichrelka_book_sound, vichrelka_book_tidy,
    vichrelka_dhcid, vichrelka_lease, vichrelka_lease_end, vichrelka_listing_check, vichrelka_name,
    vichrelka_name_from_text, vichrelka_name_to_text, vichrelka_ptr_name, vichrelka_table_add,
    vichrelka_table_clear, vichrelka_table_count, vichrelka_table_find, vichrelka_table_load,
    vichrelka_table_remove, vichrelka_table_write, vichrelka_update_add_first,
    vichrelka_update_add_second, vichrelka_update_answer, vichrelka_update_remove_first,
    vichrelka_update_remove_second,
};
use listing::Step;
use reader::peek_at;
use row::{Four, read_four};

pub fn name(family: u32, setting: u32, message: &[u8], site: &[u8]) -> u64
    ensures { spec.ToldC result (λ a. spec.NameTold family setting message.now site.now a) }
{
    vichrelka_name(family, setting, message, site)
}

pub fn dhcid<'a>(
    family: u32,
    setting: u32,
    message: &'a [u8],
    site: &'a [u8],
    out: &mut [u8],
) -> u64
    ensures { spec.ToldC result (λ a. spec.DhcidTold family setting message.now site.now out.old a out.new) }
{
    vichrelka_dhcid(family, setting, message, site, out)
}

pub fn name_from_text(text: &[u8], out: &mut [u8]) -> u64
    ensures { spec.ToldC result (λ a. spec.FromTextTold text.now out.old a out.new) }
{
    vichrelka_name_from_text(text, out)
}

pub fn name_to_text(name: &[u8], out: &mut [u8]) -> u64
    ensures { spec.ToldC result (λ a. spec.ToTextTold name.now out.old a out.new) }
{
    vichrelka_name_to_text(name, out)
}

pub fn listing_check(text: &[u8]) -> u64
    ensures { spec.ToldC result (λ a. spec.CheckTold text.now a) }
{
    vichrelka_listing_check(text)
}

pub fn table_add(
    table: &mut [u8],
    name: &[u8],
    dhcid: &[u8],
    family: u32,
    address: &[u8],
    policy: u32,
) -> u64
    ensures { spec.ToldC result (λ a. spec.AddTold table.old name.now dhcid.now family address.now policy a table.new) }
{
    vichrelka_table_add(table, name, dhcid, family, address, policy)
}

pub fn table_remove(table: &mut [u8], name: &[u8], dhcid: &[u8], family: u32, address: &[u8]) -> u64
    ensures { spec.ToldC result (λ a. spec.RemoveTold table.old name.now dhcid.now family address.now a table.new) }
{
    vichrelka_table_remove(table, name, dhcid, family, address)
}

pub fn table_clear(table: &mut [u8], name: &[u8]) -> u64
    ensures { spec.ToldC result (λ a. spec.ClearTold table.old name.now a table.new) }
{
    vichrelka_table_clear(table, name)
}

pub fn table_find(table: &[u8], name: &[u8]) -> u64
    ensures { spec.ToldC result (λ a. spec.FindTold table.now name.now a) }
{
    vichrelka_table_find(table, name)
}

pub fn table_count(table: &[u8]) -> u64
    ensures { spec.ToldC result (λ a. spec.CountTold table.now a) }
{
    vichrelka_table_count(table)
}

pub fn table_write(table: &[u8], out: &mut [u8]) -> u64
    ensures { spec.ToldC result (λ a. spec.WriteTold table.now out.old a out.new) }
{
    vichrelka_table_write(table, out)
}

pub fn table_load(table: &mut [u8], text: &[u8]) -> u64
    ensures { spec.ToldC result (λ a. spec.LoadTold text.now table.old a table.new) }
{
    vichrelka_table_load(table, text)
}

pub fn book_block(table: &[u8], name: &[u8], number: u32, out: &mut [u8]) -> u64
    ensures { spec.ToldC result (λ a. spec.BlockTold table.now name.now number out.old a out.new) }
{
    vichrelka_book_block(table, name, number, out)
}

pub fn book_replay(table: &mut [u8], book: &[u8]) -> u64
    ensures { spec.ToldC result (λ a. spec.ReplayTold book.now table.old a table.new) }
{
    vichrelka_book_replay(table, book)
}

pub fn book_tidy(book: &[u8], out: &mut [u8]) -> u64
    ensures { spec.ToldC result (λ a. spec.TidyTold book.now out.old a out.new) }
{
    vichrelka_book_tidy(book, out)
}

pub fn book_sound(book: &[u8]) -> u64
    ensures { spec.ToldC result (λ a. spec.SoundTold book.now a) }
{
    vichrelka_book_sound(book)
}

pub fn ptr_name(family: u32, address: &[u8], out: &mut [u8]) -> u64
    ensures { spec.ToldC result (λ a. spec.PtrTold family address.now out.old a out.new) }
{
    vichrelka_ptr_name(family, address, out)
}

pub fn lease(
    table: &mut [u8],
    reverse: &mut [u8],
    name: &[u8],
    dhcid: &[u8],
    family: u32,
    address: &[u8],
    policy: u32,
) -> u64
    ensures { spec.ToldC result (λ a. spec.LeaseTold table.old reverse.old name.now dhcid.now family address.now policy a table.new reverse.new) }
{
    vichrelka_lease(table, reverse, name, dhcid, family, address, policy)
}

pub fn lease_end(
    table: &mut [u8],
    reverse: &mut [u8],
    name: &[u8],
    dhcid: &[u8],
    family: u32,
    address: &[u8],
) -> u64
    ensures { spec.ToldC result (λ a. spec.EndTold table.old reverse.old name.now dhcid.now family address.now a table.new reverse.new) }
{
    vichrelka_lease_end(table, reverse, name, dhcid, family, address)
}

pub fn update_add_first(
    id: u16,
    zone: &[u8],
    name: &[u8],
    dhcid: &[u8],
    family: u32,
    address: &[u8],
    out: &mut [u8],
) -> u64
    ensures { spec.ToldC result (λ a. spec.AddFirstTold id zone.now name.now dhcid.now family address.now out.old a out.new) }
{
    vichrelka_update_add_first(id, zone, name, dhcid, family, address, out)
}

pub fn update_add_second(
    id: u16,
    zone: &[u8],
    name: &[u8],
    dhcid: &[u8],
    family: u32,
    address: &[u8],
    out: &mut [u8],
) -> u64
    ensures { spec.ToldC result (λ a. spec.AddSecondTold id zone.now name.now dhcid.now family address.now out.old a out.new) }
{
    vichrelka_update_add_second(id, zone, name, dhcid, family, address, out)
}

pub fn update_remove_first(
    id: u16,
    zone: &[u8],
    name: &[u8],
    dhcid: &[u8],
    family: u32,
    address: &[u8],
    out: &mut [u8],
) -> u64
    ensures { spec.ToldC result (λ a. spec.RemoveFirstTold id zone.now name.now dhcid.now family address.now out.old a out.new) }
{
    vichrelka_update_remove_first(id, zone, name, dhcid, family, address, out)
}

pub fn update_remove_second(id: u16, zone: &[u8], name: &[u8], dhcid: &[u8], out: &mut [u8]) -> u64
    ensures { spec.ToldC result (λ a. spec.RemoveSecondTold id zone.now name.now dhcid.now out.old a out.new) }
{
    vichrelka_update_remove_second(id, zone, name, dhcid, out)
}

pub fn update_answer(id: u16, answer: &[u8]) -> u64
    ensures { spec.ToldC result (λ a. spec.AnswerTold id answer.now a) }
{
    vichrelka_update_answer(id, answer)
}

// A table written as a listing, and that listing loaded into another area.
pub fn table_carried(table: &[u8], out: &mut [u8], area: &mut [u8]) -> u64
    ensures steps { spec.Carried table.now out.old out.new area.old result area.new }
    ensures same { spec.CarriedSame table.now out.old out.new area.old result area.new }
{
    let written = vichrelka_table_write(table, out);
    if written % 4294967296 != 0 {
        return written;
    }
    let len = (written / 4294967296) as usize;
    vichrelka_table_load(area, &out[..len])
}

// A listing read into a row of four places.
pub fn row_read(text: &[u8], places: [Record; 4]) -> Four
    ensures { Demanded text.now places result.row result.answer }
{
    read_four(text, places)
}

// The held reader, asked at an offset.
pub fn listing_step(text: &[u8], at: usize) -> Step
    ensures { spec.StepTold text.now at result }
{
    peek_at(text, at)
}

// A lease on the sides that are stored, the table in `held` and the reverse side in `behind`: they are read into memory, and the call works there.
fn lease_in_memory(
    held: &[u8],
    behind: &[u8],
    table: &mut [u8],
    reverse: &mut [u8],
    name: &[u8],
    dhcid: &[u8],
    family: u32,
    address: &[u8],
    policy: u32,
) -> u64
    requires { (length table.old ≡ length held.now) × (length reverse.old ≡ length behind.now) }
    ensures { Tells result (λ a. Leases most_names most_addresses held.now behind.now name.now dhcid.now family address.now policy a table.new reverse.new) }
{
    put(table, 0, held);
    put(reverse, 0, behind);
    gateway::vichrelka_lease(table, reverse, name, dhcid, family, address, policy)
}

// The same, of which then the first k sides are stored, the table first: power fails there.
fn lease_cut_off(
    held: &mut [u8],
    behind: &mut [u8],
    table: &mut [u8],
    reverse: &mut [u8],
    name: &[u8],
    dhcid: &[u8],
    family: u32,
    address: &[u8],
    policy: u32,
    k: u32,
)
    requires { (length table.old ≡ length held.old) × (length reverse.old ≡ length behind.old) }
    ensures { spec.LeaseCutOff held.old behind.old name.now dhcid.now family address.now policy k held.new behind.new }
{
    lease_in_memory(
        held, behind, table, reverse, name, dhcid, family, address, policy,
    );
    if k == 0 {
        return;
    }
    put(held, 0, table);
    if k == 1 {
        return;
    }
    put(behind, 0, reverse);
}

// A lease that is cut once k of the two sides are stored, and the same lease again, whole. What is then stored is what one uncut lease leaves.
pub fn lease_cut(
    held: &mut [u8],
    behind: &mut [u8],
    table: &mut [u8],
    reverse: &mut [u8],
    name: &[u8],
    dhcid: &[u8],
    family: u32,
    address: &[u8],
    policy: u32,
    k: u32,
) -> u64
    requires { (length table.old ≡ length held.old) × (length reverse.old ≡ length behind.old) }
    ensures { spec.LeaseMended held.old behind.old name.now dhcid.now family address.now policy k result held.new behind.new }
{
    lease_cut_off(
        held, behind, table, reverse, name, dhcid, family, address, policy, k,
    );
    let answer = lease_in_memory(
        held, behind, table, reverse, name, dhcid, family, address, policy,
    );
    put(held, 0, table);
    put(behind, 0, reverse);
    answer
}

// An ended lease on the sides that are stored.
fn end_in_memory(
    held: &[u8],
    behind: &[u8],
    table: &mut [u8],
    reverse: &mut [u8],
    name: &[u8],
    dhcid: &[u8],
    family: u32,
    address: &[u8],
) -> u64
    requires { (length table.old ≡ length held.now) × (length reverse.old ≡ length behind.now) }
    ensures { Tells result (λ a. Ends most_names most_addresses held.now behind.now name.now dhcid.now family address.now a table.new reverse.new) }
{
    put(table, 0, held);
    put(reverse, 0, behind);
    gateway::vichrelka_lease_end(table, reverse, name, dhcid, family, address)
}

// The same, of which then the first k sides are stored, the reverse side first: power fails there.
fn end_cut_off(
    held: &mut [u8],
    behind: &mut [u8],
    table: &mut [u8],
    reverse: &mut [u8],
    name: &[u8],
    dhcid: &[u8],
    family: u32,
    address: &[u8],
    k: u32,
)
    requires { (length table.old ≡ length held.old) × (length reverse.old ≡ length behind.old) }
    ensures { spec.EndCutOff held.old behind.old name.now dhcid.now family address.now k held.new behind.new }
{
    end_in_memory(held, behind, table, reverse, name, dhcid, family, address);
    if k == 0 {
        return;
    }
    put(behind, 0, reverse);
    if k == 1 {
        return;
    }
    put(held, 0, table);
}

// An ended lease that is cut once k of the two sides are stored, and the same again, whole. What is then stored is what one uncut run leaves.
pub fn end_cut(
    held: &mut [u8],
    behind: &mut [u8],
    table: &mut [u8],
    reverse: &mut [u8],
    name: &[u8],
    dhcid: &[u8],
    family: u32,
    address: &[u8],
    k: u32,
) -> u64
    requires { (length table.old ≡ length held.old) × (length reverse.old ≡ length behind.old) }
    ensures { spec.EndMended held.old behind.old name.now dhcid.now family address.now k result held.new behind.new }
{
    end_cut_off(
        held, behind, table, reverse, name, dhcid, family, address, k,
    );
    let answer = end_in_memory(held, behind, table, reverse, name, dhcid, family, address);
    put(behind, 0, reverse);
    put(held, 0, table);
    answer
}
