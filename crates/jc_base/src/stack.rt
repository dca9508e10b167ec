//! Moving the operands of an operand stack that lies in a slice, the bottom one first.

ghost use Rattle.std.specs.Prelude.{◌≡◌, ◌<◌, ◌≤◌, ◌+◌, ◌-◌, ◌++◌, length, reverse, take, drop};
ghost use Rattle.jc_base.specs.Stack.{duplicated, swapped};
ghost use Rattle.jc_base.specs.PrivateStack.{turned};

// Moves the last element of a slice to its front, by two moves.
fn turn_once<T: Copy>(window: &mut [T])
    requires { 0 < length window.old }
    ensures turned { window.new ≡ turned 1 window.old }
    ensures same { length window.new ≡ length window.old }
{
    let last = window.len() - 1;
    let top = window[last];
    window.copy_within(0..last, 1);
    window[0] = top;
}

// Moves the last `count` elements of a slice to its front.
fn turn<T: Copy>(window: &mut [T], count: usize)
    requires { count ≤ length window.old }
    ensures { window.new ≡ turned count window.old }
{
    for _ in 0..count {
        turn_once(window);
    }
}

/// Swaps the top `upper` of the `depth` operands with the `lower` below them.
// Kept out of line, so it takes no register from the loops that call it.
#[inline(never)]
pub fn swap_top<T: Copy>(slots: &mut [T], depth: usize, upper: usize, lower: usize)
    requires there { upper + lower ≤ depth }
    requires room { depth ≤ length slots.old }
    ensures { reverse (take depth slots.new) ≡ swapped upper lower (reverse (take depth slots.old)) }
{
    turn(&mut slots[depth - upper - lower..depth], upper);
}

// Writes the top `count` operands once more above them.
fn repeat_top<T: Copy>(slots: &mut [T], depth: usize, count: usize)
    requires there { count ≤ depth }
    requires room { depth + count ≤ length slots.old }
    ensures { take (depth + count) slots.new ≡ take depth slots.old ++ drop (depth - count) (take depth slots.old) }
{
    let (operands, free) = slots.split_at_mut(depth);
    free[..count].copy_from_slice(&operands[depth - count..]);
}

/// Puts the top `count` of the `depth` operands again, below the top `below`; below none is on top.
pub fn duplicate_top<T: Copy>(slots: &mut [T], depth: usize, count: usize, below: usize)
    requires there { count ≤ depth }
    requires deep { below ≤ depth }
    requires room { depth + count ≤ length slots.old }
    ensures { reverse (take (depth + count) slots.new) ≡ duplicated count below (reverse (take depth slots.old)) }
{
    repeat_top(slots, depth, count);
    if 0 < below {
        swap_top(slots, depth + count, count, below);
    }
}
