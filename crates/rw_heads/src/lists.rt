//! What is done at a place of a list, and nothing where it is behind the last.

ghost use Rattle.std.specs.Prelude.{◌≡◌, ◌++◌, [], ◌∷◌, List, slice_set, remove};

use rw_items::Items;

/// Takes the item at a place away, counted from 0, if there is one. It takes no memory.
#[tactic(auto, using(crate::proofs::Listed::past_removed))]
pub fn drop_at<T: Drop>(items: &mut Items<T>, at: usize)
    ensures { items.new ≡ remove items.old at }
{
    if at < items.len() {
        items.remove(at);
    }
}

/// Sets the item at a place, counted from 0, if there is one. It takes no memory.
#[tactic(auto, using(crate::proofs::Listed::past_set))]
pub fn set_at<T: Drop>(items: &mut Items<T>, at: usize, item: T)
    ensures { items.new ≡ slice_set items.old at item }
{
    if at < items.len() {
        items.set(at, item);
    }
}

/// Takes the last item away, if there is one. It takes no memory.
pub fn drop_last<T: Drop>(items: &mut Items<T>)
    ensures { (rest : List T) (last : T) → items.old ≡ rest ++ last ∷ [] → items.new ≡ rest }
{
    items.pop();
}
