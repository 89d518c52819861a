// Elements of one part of a session that C lends move to other places of it, as records of a list do when some go or one comes.
#![tactic(auto)]

ghost use Rattle.std.specs.Prelude.{◌+◌, ◌≤◌, ◌<◌, length};
ghost use Rattle.link_moves.specs.Moves.{Lowered, Raised};

// Moves the n elements at index from down to index to. This and raise are not stores::move_run: their promise speaks by index, as the proofs of records
// need it; through move_run it would be derived anew.
pub fn lower<T: Copy>(part: &mut [T], to: usize, from: usize, n: usize)
    requires { (to ≤ from) × (from + n ≤ length part.old) }
    ensures { Lowered to from n part.old part.new }
{
    part.copy_within(from..from + n, to);
}

// Moves the elements from index from up to index end up by one.
pub fn raise<T: Copy>(part: &mut [T], from: usize, end: usize)
    requires { (from ≤ end) × (end < length part.old) }
    ensures { Raised from end part.old part.new }
{
    part.copy_within(from..end, from + 1);
}
