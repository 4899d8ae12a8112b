// One block of the book of names: what it says, and how it is written.
#![tactic(auto)]

ghost use Rattle.std.specs.Prelude.{◌≡◌, length, take, drop};
ghost use Rattle.base.specs.Logic.{Decides};
ghost use Rattle.block.specs.Sealed.{block_size};
ghost use Rattle.name.specs.Name.{Proper, canonical};
ghost use Rattle.slots.specs.Form.{IsSlot, Sound};
ghost use Rattle.slots.specs.Promise.{OfSlot, OfTable};
ghost use Rattle.slots.specs.Sizes.{slot_size, most_names};
ghost use Rattle.book.specs.Notes.{Note, note_of};
ghost use Rattle.book.specs.Blocks.{slot_at, block_bytes};
ghost use Rattle.book.specs.Calls.{BlockWritten};
ghost use Rattle.book_block.specs.Promise as spec;

use base::Answer;
use base::number::to_be32;
use base::refusal::{NO_PROPER_NAME, OUTPUT_SHORT, TABLE_NOT_SOUND, WRONG_CHECK, WRONG_FIELD};
use base::slice::put;
use block::{is_checked, seal};
use name::wire::{is_canonical, is_proper, put_canonical};
use octets::{are_zeros_at_once, put_zeros, same};
use slot::is_slot;
use slot_row::is_sound;

// Where the kind and the slot of a block stand, and where the slot ends.
pub const KIND: usize = 4;

pub const SLOT: usize = 5;

const SLOT_END: usize = SLOT + slot::SIZE;

// The kinds: the name is gone, and the name stands as the slot says.
pub const GONE: u8 = 0;

pub const STANDS: u8 = 1;

// The greatest number that a block can have.
pub const MOST: usize = 4294967295;

// Is this the slot of a proper canonical name with nothing under it?
fn is_bare(slot: &[u8]) -> bool
    requires { length slot.now ≡ slot_size }
    ensures { Decides result (spec.IsBare slot.now) }
{
    let end = 1 + slot[0] as usize;
    if !is_canonical(&slot[1..end]) {
        return false;
    }
    are_zeros_at_once(&slot[end..])
}

// What these bytes have wrong as block i: 42, 43; 0 if nothing. Whether a name that is gone stood before is not asked.
pub fn fault(block: &[u8], i: usize) -> u32
    requires { length block.now ≡ block_size }
    ensures { spec.BlockIs i block.now result }
{
    if !is_checked(block) {
        return WRONG_CHECK;
    }
    if MOST < i {
        return WRONG_FIELD;
    }
    let number = to_be32(i as u32);
    if !same(&block[..KIND], &number) {
        return WRONG_FIELD;
    }
    if !are_zeros_at_once(&block[SLOT_END..block::BODY]) {
        return WRONG_FIELD;
    }
    if block[KIND] == GONE {
        if is_bare(&block[SLOT..SLOT_END]) {
            return 0;
        }
        return WRONG_FIELD;
    }
    if block[KIND] == STANDS {
        if is_slot(&block[SLOT..SLOT_END]) {
            return 0;
        }
        return WRONG_FIELD;
    }
    WRONG_FIELD
}

// Writes what is around the slot of a block: number, kind and zeros, and then the check.
fn frame(block: &mut [u8], number: u32, kind: u8)
    requires { length block.old ≡ block_size }
    ensures { block.new ≡ spec.framed number kind (take slot_size (drop slot_at block.old)) }
{
    let bytes = to_be32(number);
    put(block, 0, &bytes);
    block[KIND] = kind;
    put_zeros(block, SLOT_END, block::BODY - SLOT_END);
    seal(block);
}

// Writes the block that says of a name that it stands as this slot has it.
pub fn put_stands(block: &mut [u8], number: u32, slot: &[u8])
    requires { (length block.old ≡ block_size) × (IsSlot slot.now) }
    ensures { OfSlot slot.now (λ e. block.new ≡ block_bytes number (Note.stands e)) }
{
    put(block, SLOT, slot);
    frame(block, number, STANDS);
}

// Writes the block that says of a name that it is gone.
pub fn put_gone(block: &mut [u8], number: u32, name: &[u8])
    requires { (length block.old ≡ block_size) × (Proper name.now) }
    ensures { block.new ≡ block_bytes number (Note.gone (canonical name.now)) }
{
    let end = SLOT + 1 + name.len();
    block[SLOT] = name.len() as u8;
    put_canonical(block, SLOT + 1, name);
    put_zeros(block, end, SLOT_END - end);
    frame(block, number, GONE);
}

// Writes the block of a name as a sound table has it.
fn put_name(block: &mut [u8], number: u32, table: &[u8], name: &[u8])
    requires { (length block.old ≡ block_size) × (Sound most_names table.now) × (Proper name.now) }
    ensures { OfTable most_names table.now (λ t. block.new ≡ block_bytes number (note_of (canonical name.now) t)) }
{
    let i = slot_row::find(table, name);
    if i == slot_row::count(table) {
        put_gone(block, number, name);
        return;
    }
    let at = slot::SIZE * i;
    put_stands(block, number, &table[at..at + slot::SIZE]);
}

// Writes the block of a name as the table has it, under this number, at the beginning of `out`, and answers its size. Refusals: 40, 9, 13.
pub fn write(table: &[u8], name: &[u8], number: u32, out: &mut [u8]) -> Answer
    ensures { BlockWritten most_names table.now name.now number out.old result out.new }
{
    if !is_sound(table) {
        return Answer::refused(TABLE_NOT_SOUND);
    }
    if !is_proper(name) {
        return Answer::refused(NO_PROPER_NAME);
    }
    if out.len() < block::SIZE {
        return Answer::refused(OUTPUT_SHORT);
    }
    put_name(&mut out[..block::SIZE], number, table, name);
    Answer::Accepted(block::SIZE as u32)
}
