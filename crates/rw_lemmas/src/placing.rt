//! Entries in places.

ghost use Rattle.std.specs.Prelude.{◌≡◌, ◌≤◌, ◌<◌, length, OnOk, IfOk, remove};
ghost use Rattle.rw_lemmas.specs.Table.{put_at, moved, proof_of_entry};

use rw_goals::library::Item;
use rw_items::Items;
use rw_sequents::line::Cert;
use std::alloc::{AllocError, Global};

/// Puts one in a place, instead of that there, or last.
#[tactic(auto, using(crate::proofs::Places::put_there, crate::proofs::Places::put_last))]
pub fn put_at<T: Drop>(items: &mut Items<T>, at: usize, item: T) -> Result<(), AllocError>
    requires { at ≤ length items.old }
    ensures { OnOk result (items.new ≡ put_at at item items.old) }
{
    if at < items.len() {
        items.set(at, item);
        return Ok(());
    }
    items.push(item)
}

/// Takes one out of its place and puts it in another.
#[tactic(auto, using(crate::proofs::Places::removed_length, crate::proofs::Places::moved_there))]
pub fn move_to<T: Drop>(items: &mut Items<T>, from: usize, to: usize) -> Result<(), AllocError>
    requires from { from < length items.old }
    requires to { to < length items.old }
    ensures { OnOk result (items.new ≡ moved from to items.old) }
{
    let item = items.remove(from);
    items.insert(to, item)
}

/// Takes one out of its place.
pub fn take_out<T: Drop>(items: &mut Items<T>, at: usize)
    requires { at < length items.old }
    ensures { items.new ≡ remove items.old at }
{
    items.remove(at);
}

/// The same certificates again.
pub fn copy_proofs(
    alloc: Global,
    proofs: &[Option<Cert>],
) -> Result<Items<Option<Cert>>, AllocError>
    ensures { IfOk result (λ copies. copies ≡ proofs.now) }
{
    let mut copies = Items::new(alloc);
    for proof in proofs {
        copies.push(copy_proof(alloc, proof)?)?;
    }
    Ok(copies)
}

fn copy_proof(alloc: Global, proof: &Option<Cert>) -> Result<Option<Cert>, AllocError>
    ensures { IfOk result (λ copy. copy ≡ proof.now) }
{
    match proof {
        Some(cert) => Ok(Some(cert.copy(alloc)?)),
        None => Ok(None),
    }
}

/// What stands beside an entry: a lemma has its certificate, or none, and a definition has none.
pub fn proof_of_entry(
    alloc: Global,
    entry: &Item,
    proof: &Option<Cert>,
) -> Result<Option<Cert>, AllocError>
    ensures { IfOk result (λ p. p ≡ proof_of_entry entry.now proof.now) }
{
    match entry {
        Item::Definition(_) => Ok(None),
        Item::Lemma(_) => copy_proof(alloc, proof),
    }
}
