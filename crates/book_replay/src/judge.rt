// Is a book right, and where does what stands stand in it? Nothing of the book is copied: for each name that stands, in order, the number of the block is
// kept that last said it.
ghost use Rattle.std.specs.Prelude.{◌≡◌, List, ◌++◌, ℕ, ◌+◌, ◌*◌, ◌-◌, ◌≤◌, ◌<◌, length, take, drop};
ghost use Rattle.base.specs.Bytes.{eq_bytes};
ghost use Rattle.block.specs.Sealed.{block_size};
ghost use Rattle.slots.specs.Entry.{position};
ghost use Rattle.slots.specs.Form.{TableEntry};
ghost use Rattle.slots.specs.Sizes.{most_names};
ghost use Rattle.book.specs.Blocks.{slot_at};
ghost use Rattle.book_replay.specs.Judging as spec;

use base::refusal::{TABLE_NOT_SOUND, WRONG_FIELD};
use book_block::{GONE, KIND, SLOT, fault};
use octets::same;
use slot_row::SLOTS;

// A name with its length: the first bytes of a slot.
pub(crate) const HEAD: usize = slot::FLAGS;

pub(crate) const HEAD_END: usize = SLOT + HEAD;

// What one block says, as plain numbers: its fault, 0 if none; the kind; and where its name stands among those that are kept, or how many they are.
#[derive(Drop)]
pub struct Turn {
    pub fault: u32,
    pub kind: u8,
    pub index: usize,
}

// What the blocks of a book come to: how many are good, and how many names then stand.
#[derive(Drop)]
pub struct Judged {
    pub used: usize,
    pub good: usize,
    pub fault: u32,
}

// Takes the number at `at` out of the first ones: later ones move up.
fn take_out(numbers: &mut [u32], at: usize, used: usize)
    requires { (at < used) × (used ≤ length numbers.old) }
    ensures { take (used - 1) numbers.new ≡ take at numbers.old ++ drop (at + 1) (take used numbers.old) }
{
    let mut j = at;
    while j + 1 < used {
        numbers[j] = numbers[j + 1];
        j += 1;
    }
}

// Is this the name, with its length, that block p says?
pub(crate) fn is_head(book: &[u8], p: usize, head: &[u8]) -> bool
    requires { block_size * p + block_size ≤ length book.now }
    ensures { result ≡ eq_bytes (take 256 (drop (block_size * p + slot_at) book.now)) head.now }
{
    let at = block::SIZE * p + SLOT;
    same(&book[at..at + HEAD], head)
}

// Where the name with this head stands among those that are kept; how many they are, if it does not.
fn index_of(book: &[u8], i: usize, numbers: &[u32], used: usize, head: &[u8]) -> usize
    requires { (block_size * i ≤ length book.now) × (used ≤ length numbers.now) × ((t : List TableEntry) × spec.Kept book.now i numbers.now used t) }
    ensures { (t : List TableEntry) → spec.Kept book.now i numbers.now used t → (n : List ℕ) → head.now ≡ spec.head_of n → result ≡ position n t }
{
    let mut j: usize = 0;
    while j < used {
        if is_head(book, numbers[j] as usize, head) {
            return j;
        }
        j += 1;
    }
    j
}

// A look at block i, where the names stand that `numbers` keeps.
fn look(book: &[u8], i: usize, numbers: &[u32], used: usize) -> Turn
    requires { (block_size * i + block_size ≤ length book.now) × (used ≤ length numbers.now) × ((t : List TableEntry) × spec.Kept book.now i numbers.now used t) }
    ensures { (t : List TableEntry) → spec.Kept book.now i numbers.now used t → spec.LookIs i (spec.block_at book.now i) t result }
{
    let at = block::SIZE * i;
    let block = &book[at..at + block::SIZE];
    let fault = fault(block, i);
    if fault != 0 {
        return Turn {
            fault: fault,
            kind: 0,
            index: used,
        };
    }
    let kind = block[KIND];
    let index = index_of(book, i, numbers, used, &block[SLOT..HEAD_END]);
    if kind != GONE {
        return Turn {
            fault: 0,
            kind: kind,
            index: index,
        };
    }
    if index == used {
        return Turn {
            fault: WRONG_FIELD,
            kind: 0,
            index: used,
        };
    }
    Turn {
        fault: 0,
        kind: kind,
        index: index,
    }
}

// Judges the whole blocks of a book one by one; what is behind the last whole one is not looked at. For each name that then stands, in order, the number of the block
// that last said it is left in `numbers`, which has room for as many names as a table.
pub(crate) fn judge(book: &[u8], numbers: &mut [u32]) -> Judged
    requires { length numbers.old ≡ most_names }
    ensures { spec.JudgedAs most_names book.now numbers.new result }
{
    let count = book.len() / block::SIZE;
    let mut used: usize = 0;
    let mut i: usize = 0;
    while i < count {
        let turn = look(book, i, numbers, used);
        if turn.fault != 0 {
            return Judged {
                used: used,
                good: i,
                fault: turn.fault,
            };
        }
        let here = i;
        let at = turn.index;
        i += 1;
        if turn.kind == GONE {
            take_out(numbers, at, used);
            used -= 1;
        } else if at < used {
            numbers[at] = here as u32;
        } else if used < SLOTS {
            numbers[used] = here as u32;
            used += 1;
        } else {
            return Judged {
                used: used,
                good: here,
                fault: TABLE_NOT_SOUND,
            };
        }
    }
    Judged {
        used: used,
        good: i,
        fault: 0,
    }
}
