//! Blocks of cells.

ghost use Rattle.std.specs.Prelude.{◌≡◌, ◌+◌, ◌++◌, ◌≤◌, ◌<◌, drop, length, replicate, slice_range};
ghost use Rattle.jc_store.specs.Blocks.{put_over};

use crate::header::Head;

// How many words are written at once.
const BLOCK: usize = 16;

// How many cells are moved at once, as long as there are that many; and how many at once after that.
const LARGE: usize = 64;

const SMALL: usize = 8;

// How many words are written before they are copied. Words that were just written are slow to read in larger pieces, so
// copying doesn't pay for fewer.
const FIRST: usize = 256;

/// The components of an object.
#[inline]
pub(crate) fn part_of(cells: &[u16], head: Head) -> &[u16]
    requires within { head.start + head.len ≤ length cells.now }
    ensures { result.now ≡ slice_range cells.now head.start (head.start + head.len) }
{
    let start = usize::from(head.start);
    &cells[start..start + usize::from(head.len)]
}

/// The `count` components of an object from an index on.
#[inline]
pub(crate) fn some_of(cells: &[u16], head: Head, index: usize, count: usize) -> &[u16]
    requires within { head.start + index + count ≤ length cells.now }
    ensures { result.now ≡ slice_range cells.now (head.start + index) (head.start + index + count) }
{
    let start = usize::from(head.start) + index;
    &cells[start..start + count]
}

// Fills a block of cells with a word.
#[inline]
fn fill_block(cells: &mut [u16], start: usize, word: u16)
    requires within { start + 16 ≤ length cells.old }
    ensures { cells.new ≡ put_over cells.old start (replicate 16 word) }
{
    cells[start..start + BLOCK].fill(word);
}

// Fills cells with a word, in blocks. The last block may overlap the one before.
#[inline]
fn fill_in_blocks(cells: &mut [u16], word: u16)
    ensures { cells.new ≡ replicate (length cells.old) word }
{
    let end = cells.len();
    if end < BLOCK {
        cells.fill(word);
        return;
    }
    let mut filled = 0;
    while BLOCK <= end - filled {
        fill_block(cells, filled, word);
        filled += BLOCK;
    }
    fill_block(cells, end - BLOCK, word);
}

// Fills cells with a word; the first `first` hold it already. What is written is copied after itself, twice as many
// cells each time: the C library copies more at a time than a block.
#[inline(never)]
fn fill_by_copies(cells: &mut [u16], first: usize, word: u16)
    requires filled { cells.old ≡ replicate first word ++ drop first cells.old }
    requires within { first ≤ length cells.old }
    requires some { 0 < first }
    ensures { cells.new ≡ replicate (length cells.old) word }
{
    let mut filled = first;
    while filled < cells.len() {
        let more = filled.min(cells.len() - filled);
        let (front, back) = cells.split_at_mut(filled);
        back[..more].copy_from_slice(&front[..more]);
        filled += more;
    }
}

/// Fills the `count` components of an object from an index on with a word.
#[inline]
pub(crate) fn fill_part(cells: &mut [u16], head: Head, index: usize, count: usize, word: u16)
    requires within { head.start + index + count ≤ length cells.old }
    ensures { cells.new ≡ put_over cells.old (head.start + index) (replicate count word) }
{
    let start = usize::from(head.start) + index;
    let part = &mut cells[start..start + count];
    // the C library fills with 0
    if word == 0 {
        part.fill(0);
        return;
    }
    // called in one place, so LLVM inlines it
    let first = count.min(FIRST);
    fill_in_blocks(&mut part[..first], word);
    if first < count {
        fill_by_copies(part, first, word);
    }
}

// Writes a byte to each cell.
#[inline]
fn put_each(cells: &mut [u16], bytes: &[u8])
    requires sized { length cells.old ≡ length bytes.now }
    ensures { cells.new ≡ bytes.now }
{
    for at in 0..bytes.len() {
        cells[at] = u16::from(bytes[at]);
    }
}

/// Writes bytes to components of an object, one to each, from an index on.
#[inline]
pub(crate) fn put_part(cells: &mut [u16], head: Head, index: usize, bytes: &[u8])
    requires within { head.start + index + length bytes.now ≤ length cells.old }
    ensures { cells.new ≡ put_over cells.old (head.start + index) bytes.now }
{
    let start = usize::from(head.start) + index;
    put_each(&mut cells[start..start + bytes.len()], bytes);
}

// Copies `count` cells to later ones that don't overlap them.
#[inline]
fn copy_behind(cells: &mut [u16], from: usize, to: usize, count: usize)
    requires to_within { to + count ≤ length cells.old }
    requires apart { from + count ≤ to }
    ensures { cells.new ≡ put_over cells.old to (slice_range cells.old from (from + count)) }
{
    let (front, back) = cells.split_at_mut(to);
    back[..count].copy_from_slice(&front[from..from + count]);
}

// Copies `count` cells to earlier ones that don't overlap them.
#[inline]
fn copy_before(cells: &mut [u16], from: usize, to: usize, count: usize)
    requires from_within { from + count ≤ length cells.old }
    requires apart { to + count ≤ from }
    ensures { cells.new ≡ put_over cells.old to (slice_range cells.old from (from + count)) }
{
    let (front, back) = cells.split_at_mut(from);
    front[to..to + count].copy_from_slice(&back[..count]);
}

// Moves a block of cells; source and target may overlap.
#[inline]
fn move_block<const N: usize>(cells: &mut [u16], from: usize, to: usize)
    requires from_within { from + N ≤ length cells.old }
    requires to_within { to + N ≤ length cells.old }
    ensures { cells.new ≡ put_over cells.old to (slice_range cells.old from (from + N)) }
{
    let mut block = [0; N];
    block.copy_from_slice(&cells[from..from + N]);
    cells[to..to + N].copy_from_slice(&block);
}

// Moves blocks of cells upwards, the last one first. It returns how many cells at the front are left.
#[inline]
fn move_blocks_up<const N: usize>(cells: &mut [u16], from: usize, to: usize, count: usize) -> usize
    requires some { 0 < N }
    requires upwards { from ≤ to }
    requires within { to + count ≤ length cells.old }
    ensures few { result < N }
    ensures within { result ≤ count }
    ensures moved { cells.new ≡ put_over cells.old (to + result)
        (slice_range cells.old (from + result) (from + count)) }
{
    let mut left = count;
    while N <= left {
        left -= N;
        move_block::<N>(cells, from + left, to + left);
    }
    left
}

// Moves blocks of cells downwards, the first one first. It returns how many cells were moved.
#[inline]
fn move_blocks_down<const N: usize>(
    cells: &mut [u16],
    from: usize,
    to: usize,
    count: usize,
) -> usize
    requires some { 0 < N }
    requires downwards { to ≤ from }
    requires within { from + count ≤ length cells.old }
    ensures most { count < result + N }
    ensures within { result ≤ count }
    ensures moved { cells.new ≡ put_over cells.old to (slice_range cells.old from (from + result)) }
{
    let mut moved = 0;
    while N <= count - moved {
        move_block::<N>(cells, from + moved, to + moved);
        moved += N;
    }
    moved
}

// Copies `count` cells upwards; source and target may overlap.
#[inline]
fn move_up(cells: &mut [u16], from: usize, to: usize, count: usize)
    requires upwards { from ≤ to }
    requires within { to + count ≤ length cells.old }
    ensures { cells.new ≡ put_over cells.old to (slice_range cells.old from (from + count)) }
{
    let large = move_blocks_up::<LARGE>(cells, from, to, count);
    let small = move_blocks_up::<SMALL>(cells, from, to, large);
    cells.copy_within(from..from + small, to);
}

// Copies `count` cells downwards; source and target may overlap.
#[inline]
fn move_down(cells: &mut [u16], from: usize, to: usize, count: usize)
    requires downwards { to ≤ from }
    requires within { from + count ≤ length cells.old }
    ensures { cells.new ≡ put_over cells.old to (slice_range cells.old from (from + count)) }
{
    let large = move_blocks_down::<LARGE>(cells, from, to, count);
    let small = move_blocks_down::<SMALL>(cells, from + large, to + large, count - large);
    let moved = large + small;
    cells.copy_within(from + moved..from + count, to + moved);
}

/// Copies `count` components of an object to those of another, from indexes on; source and target may overlap.
#[inline]
pub(crate) fn copy_part(
    cells: &mut [u16],
    source: Head,
    source_index: usize,
    target: Head,
    target_index: usize,
    count: usize,
)
    requires source_within { source.start + source_index + count ≤ length cells.old }
    requires target_within { target.start + target_index + count ≤ length cells.old }
    ensures { cells.new ≡ put_over cells.old (target.start + target_index)
        (slice_range cells.old (source.start + source_index) (source.start + source_index + count)) }
{
    let from = usize::from(source.start) + source_index;
    let to = usize::from(target.start) + target_index;
    if from + count <= to {
        copy_behind(cells, from, to, count);
    } else if to + count <= from {
        copy_before(cells, from, to, count);
    } else if from <= to {
        move_up(cells, from, to, count);
    } else {
        move_down(cells, from, to, count);
    }
}
