// The blocks behind one that brought a name too many: a book that is refused, and the question is only whether with 42, 43 or 40. All names count here, and
// no place is kept for them, so a name is sought backwards in the book: the work grows with the square of what is left.
ghost use Rattle.std.specs.Prelude.{◌≡◌, List, ℕ, ◌+◌, ◌*◌, ◌≤◌, length, take};
ghost use Rattle.block.specs.Sealed.{block_size};
ghost use Rattle.slots.specs.Fields.{there};
ghost use Rattle.table.specs.Steps.{find};
ghost use Rattle.book.specs.Notes.{Note, after};
ghost use Rattle.book.specs.Books.{Right};
ghost use Rattle.book_replay.specs.Judging as spec;

use crate::judge::{HEAD_END, is_head};
use base::refusal::WRONG_FIELD;
use book_block::{GONE, KIND, SLOT, STANDS, fault};

// Does the name with this head stand after the first i blocks? It does if the last of them that names it has kind 1.
fn stands_before(book: &[u8], i: usize, head: &[u8]) -> bool
    requires { (block_size * i ≤ length book.now) × (spec.RightBlocks book.now i) }
    ensures { (cs : List Note) → Right (take (block_size * i) book.now) cs → (n : List ℕ) → head.now ≡ spec.head_of n → result ≡ there (find n (after cs)) }
{
    let mut j = i;
    while 0 < j {
        j -= 1;
        if is_head(book, j, head) {
            return book[block::SIZE * j + KIND] == STANDS;
        }
    }
    false
}

// What block i has wrong, if anything, however many names stand.
fn fault_beyond(book: &[u8], i: usize) -> u32
    requires { (block_size * i + block_size ≤ length book.now) × (spec.RightBlocks book.now i) }
    ensures { (cs : List Note) → Right (take (block_size * i) book.now) cs → spec.FaultIs i (spec.block_at book.now i) (after cs) result }
{
    let at = block::SIZE * i;
    let block = &book[at..at + block::SIZE];
    let fault = fault(block, i);
    if fault != 0 {
        return fault;
    }
    if block[KIND] != GONE {
        return 0;
    }
    if stands_before(book, i, &block[SLOT..HEAD_END]) {
        return 0;
    }
    WRONG_FIELD
}

// Judges the blocks from `from` on, where more names may stand than there is room for.
pub(crate) fn judge_beyond(book: &[u8], from: usize) -> u32
    requires { (block_size * from ≤ length book.now) × (spec.RightBlocks book.now from) }
    ensures { spec.JudgesRest book.now result }
{
    let count = book.len() / block::SIZE;
    let mut i = from;
    while i < count {
        let fault = fault_beyond(book, i);
        if fault != 0 {
            return fault;
        }
        i += 1;
    }
    0
}
