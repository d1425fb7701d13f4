// The bytes of replies.
ghost use Rattle.std.specs.Prelude.{◌≡◌, ◌≤◌, ◌++◌, ◌∷◌, [], ◌||◌, ℕ, length, Contains, IfOk, OnOk, OnErr};
ghost use Rattle.rw_project.specs.Session.{after, written, refuses, text_of};

use rw_project::{Project, ProjectError, Reply, is_silent};
use rw_steps::Steps;
use std::alloc::{AllocError, Global};
use std::sync::ledger::Ledger;

// The text of a reply: its body lines, each behind `| `, and its last line.
fn spell(alloc: Global, reply: &Reply) -> Result<Vec<u8>, AllocError>
    ensures { IfOk result (λ text. text.items ≡ text_of reply.now.lines reply.now.end) }
{
    let mut text = Vec::new(alloc);
    for line in reply.lines.as_slice() {
        push_line(&mut text, b"| ", line.bytes())?;
    }
    push_line(&mut text, b"", reply.end.bytes())?;
    Ok(text)
}

fn push_line(text: &mut Vec<u8>, mark: &[u8], line: &[u8]) -> Result<(), AllocError>
    ensures { OnOk result (text.new.items ≡ text.old.items ++ mark.now ++ line.now ++ 10 ∷ []) }
{
    text.extend_from_slice(mark)?;
    text.extend_from_slice(line)?;
    text.push(b'\n')?;
    Ok(())
}

/// Answers a line, adds what is written for it to the pending bytes, and says whether it is refused. Want of memory
/// leaves the pending bytes as they were.
pub fn answer_line<L: Ledger>(
    alloc: Global,
    project: &mut Project,
    line: &[u8],
    steps: &mut Steps<L>,
    pending: &mut Vec<u8>,
) -> Result<bool, ProjectError>
    requires short { length line.now ≤ 65536 }
    requires one_line { Contains line.now 10 → ⊥ }
    ensures after { OnOk result (project.new ≡ after project.old line.now) }
    ensures refused { IfOk result (λ refused. refused ≡ refuses project.old line.now) }
    ensures text { OnOk result (pending.new.items ≡ pending.old.items ++ written project.old line.now) }
    ensures err { OnErr result (pending.new.items ≡ pending.old.items) }
{
    if is_silent(line) {
        return Ok(false);
    }
    let reply = project.answer(line, steps)?;
    let text = spell(alloc, &reply)?;
    pending.extend_from_slice(&text)?;
    Ok(reply.refused)
}
