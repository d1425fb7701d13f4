// What is found for an obligation of a node.
ghost use Rattle.std.specs.Prelude.{◌≡◌, [], true, false, option_copied, IfOk};
ghost use Rattle.rw_finder.specs.Finding.{found_of};
ghost use Rattle.rw_found_texts.specs.Texts.{found_lines, found_text};
ghost use Rattle.rw_project.specs.Texts.{refusal_text};
ghost use Rattle.rw_project.specs.Goals.{need_of};
ghost use Rattle.rw_project.specs.Session.{History, told_need};

use crate::project::{ProjectError, Reply};
use crate::texts::no_obligation_text;
use rw_anew::status::Need;
use rw_finder::find::find;
use rw_found_texts::{found_lines, found_text};
use rw_items::Items;
use rw_refusals::refusal::EditRefusal;
use rw_terms::sequent::Sequent;
use std::alloc::Global;

/// The reply to a request for arithmetic lines for the obligation of a number, counted from 1.
pub fn find_need(alloc: Global, number: u32, needs: &[Need]) -> Result<Reply, ProjectError>
    ensures lines { IfOk result (λ r. (history : History) → r.lines ≡ (told_need history number (need_of number needs.now)).lines) }
    ensures end { IfOk result (λ r. (history : History) → r.end ≡ (told_need history number (need_of number needs.now)).end) }
    ensures refused { IfOk result (λ r. (history : History) → r.refused ≡ (told_need history number (need_of number needs.now)).refused) }
{
    match need_of(number, needs) {
        Some(need) => find_goal(alloc, &need.sequent),
        None => no_need(alloc, number),
    }
}

fn need_of(number: u32, needs: &[Need]) -> Option<&Need>
    ensures { option_copied result ≡ need_of number needs.now }
{
    if number == 0 {
        return None;
    }
    needs.get(number as usize - 1)
}

// What is found for a goal, or why nothing is.
fn find_goal(alloc: Global, goal: &Sequent) -> Result<Reply, ProjectError>
    ensures lines { IfOk result (λ r. r.lines ≡ found_lines (found_of goal.now)) }
    ensures end { IfOk result (λ r. r.end ≡ found_text (found_of goal.now)) }
    ensures refused { IfOk result (λ r. r.refused ≡ false) }
{
    let found = find(alloc, goal)?;
    let lines = found_lines(alloc, &found)?;
    let end = found_text(alloc, &found)?;
    Ok(Reply {
        lines,
        end,
        refused: false,
    })
}

// The reply where no obligation has the number.
fn no_need(alloc: Global, number: u32) -> Result<Reply, ProjectError>
    ensures lines { IfOk result (λ r. r.lines ≡ []) }
    ensures end { IfOk result (λ r. r.end ≡ refusal_text (EditRefusal.NoObligation number)) }
    ensures refused { IfOk result (λ r. r.refused ≡ true) }
{
    let end = no_obligation_text(alloc, number)?;
    Ok(Reply {
        lines: Items::new(alloc),
        end,
        refused: true,
    })
}
