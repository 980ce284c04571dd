// The changes that undo can take back. The desk and at most 64 before it stand in a ring of 65 places, where a new one takes the place of
// the oldest. These functions say which place; the desks are the caller's: an array of 65, since a deque would keep them on a heap.
#![tactic(auto)]

ghost use Rattle.std.specs.Prelude.{◌≡◌, ◌<◌};
ghost use Rattle.undo.specs.Undo as Undo;

// The place of the desk, how many changes are kept, and whether an older one was dropped: a fact of its own, since 64 are kept both before
// the first is dropped and after.
#[derive(Clone, Copy)]
pub struct Kept {
    pub top: usize,
    pub count: usize,
    pub dropped: bool,
}

// The place of the desk among the 65.
pub fn place(k: Kept) -> usize
    ensures { (result ≡ Undo.place k) × (result < 65) }
{
    let top = k.top;
    top % 65
}

// One change more, where there was one. Whether there was is asked here: the definition `one_step_more` takes it.
#[tactic(auto, unfolding(crate::specs::Undo::one_step_more))]
pub fn one_more(k: Kept, changed: bool) -> Kept
    ensures { result ≡ Undo.one_step_more k changed }
{
    if !changed {
        return k;
    }
    if k.count < 64 {
        return Kept {
            top: k.top % 65 + 1,
            count: k.count + 1,
            ..k
        };
    }
    Kept {
        top: k.top % 65 + 1,
        count: 64,
        dropped: true,
    }
}

// The last change is taken back, where that is asked for and one is kept. Whether it is asked for is tested here: `one_less` takes it.
#[tactic(auto, unfolding(crate::specs::Undo::one_less))]
pub fn one_less(k: Kept, asked: bool) -> Kept
    ensures { result ≡ Undo.one_less k asked }
{
    if !asked || k.count == 0 {
        return k;
    }
    Kept {
        top: k.top % 65 + 64,
        count: k.count - 1,
        ..k
    }
}
