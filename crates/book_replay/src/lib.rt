// The book of names, judged, replayed and tidied. A call decides first and writes last, so a refused one has written nothing.
#![tactic(auto)]

mod beyond;
pub mod judge;

ghost use Rattle.std.specs.Prelude.{◌≡◌, List, ◌*◌, ◌/◌, ◌≤◌, length};
ghost use Rattle.base.specs.Bytes.{overlay};
ghost use Rattle.block.specs.Sealed.{block_size};
ghost use Rattle.slots.specs.Form.{TableEntry, table_bytes};
ghost use Rattle.slots.specs.Sizes.{most_names, table_size};
ghost use Rattle.book.specs.Books.{SoundBlocks, tidied};
ghost use Rattle.book.specs.Calls.{Replays, Tidies};
ghost use Rattle.book_replay.specs.Judging as spec;

use base::Answer;
use base::refusal::{BLOCK_LENGTH, OUTPUT_SHORT, TABLE_NOT_SOUND};
use base::slice::put;
use beyond::judge_beyond;
use book_block::{MOST, SLOT, put_stands};
use judge::{Judged, judge};
use octets::put_zeros;
use slot_row::SLOTS;

// What a whole book comes to, with the numbers of the blocks that `judge` leaves. Its fault is 44; 42 or 43 for the first bad block, also behind one that brings a name too
// many; 40; or 0.
fn judge_whole(book: &[u8], numbers: &mut [u32]) -> Judged
    requires { length numbers.old ≡ most_names }
    ensures { spec.WholeJudged most_names book.now numbers.new result }
{
    if book.len() % block::SIZE != 0 {
        return Judged {
            used: 0,
            good: 0,
            fault: BLOCK_LENGTH,
        };
    }
    let mut judged = judge(book, numbers);
    if judged.fault != TABLE_NOT_SOUND {
        return judged;
    }
    let later = judge_beyond(book, judged.good);
    if later != 0 {
        judged.fault = later;
    }
    judged
}

// Makes the table that of the names that are kept, whatever it was.
fn fill(table: &mut [u8], book: &[u8], numbers: &[u32], used: usize)
    requires { (length table.old ≡ table_size) × (spec.AllKept book.now numbers.now used) }
    ensures { (t : List TableEntry) → spec.Kept book.now (length book.now / block_size) numbers.now used t → table.new ≡ table_bytes most_names t }
{
    let mut j: usize = 0;
    while j < used {
        let at = block::SIZE * numbers[j] as usize + SLOT;
        put(table, slot::SIZE * j, &book[at..at + slot::SIZE]);
        j += 1;
    }
    let end = slot::SIZE * used;
    put_zeros(table, end, slot_row::SIZE - end);
}

// Writes a block for each name that is kept, in order and numbered from 0.
fn put_blocks(out: &mut [u8], book: &[u8], numbers: &[u32], used: usize)
    requires { (block_size * used ≤ length out.old) × (spec.AllKept book.now numbers.now used) }
    ensures { (t : List TableEntry) → spec.Kept book.now (length book.now / block_size) numbers.now used t → out.new ≡ overlay out.old 0 (tidied t) }
{
    let mut j: usize = 0;
    while j < used {
        let at = block::SIZE * numbers[j] as usize + SLOT;
        let to = block::SIZE * j;
        put_stands(
            &mut out[to..to + block::SIZE],
            j as u32,
            &book[at..at + slot::SIZE],
        );
        j += 1;
    }
}

// Replays a book into the first 19,968 bytes of an area, whatever they were, and answers 0. Refusals, at which the area stays as it was: 44; 42 or 43 for the first
// bad block; 40; and 13 where the area is too short.
pub fn replay(table: &mut [u8], book: &[u8]) -> Answer
    ensures { Replays most_names book.now table.old result table.new }
{
    let mut numbers = [0u32; SLOTS];
    let judged = judge_whole(book, &mut numbers);
    let fault = judged.fault;
    if fault != 0 {
        return Answer::refused(fault);
    }
    if table.len() < slot_row::SIZE {
        return Answer::refused(OUTPUT_SHORT);
    }
    fill(&mut table[..slot_row::SIZE], book, &numbers, judged.used);
    Answer::Accepted(0)
}

// Writes one block for each name that a book leaves, in order, at the beginning of `out`, and answers the bytes written. Refusals, at which `out` stays as it was: 44; 42 or
// 43 for the first bad block; 40; 13.
pub fn tidy(book: &[u8], out: &mut [u8]) -> Answer
    ensures { Tidies most_names book.now out.old result out.new }
{
    let mut numbers = [0u32; SLOTS];
    let judged = judge_whole(book, &mut numbers);
    let fault = judged.fault;
    if fault != 0 {
        return Answer::refused(fault);
    }
    let used = judged.used;
    let size = block::SIZE * used;
    if out.len() < size {
        return Answer::refused(OUTPUT_SHORT);
    }
    put_blocks(out, book, &numbers, used);
    Answer::Accepted(size as u32)
}

// How many blocks of a book are sound, from the first on; never 2^32 or more.
pub fn sound_blocks(book: &[u8]) -> u32
    ensures { SoundBlocks most_names book.now result }
{
    let mut numbers = [0u32; SLOTS];
    let judged = judge(book, &mut numbers);
    let good = judged.good;
    if MOST < good {
        return MOST as u32;
    }
    good as u32
}
