use rw_items::Items;
use rw_programs::applied::Child;
use rw_terms::sequent::Sequent;

/// What a step leaves to do: the kids' specifications, and what is to be shown.
#[derive(Drop)]
pub struct Premises {
    pub children: Items<Child>,
    pub obligations: Items<Sequent>,
}
