//! Judging one proposal.

ghost use Rattle.std.specs.Prelude.{IfOk};
ghost use Rattle.oeis_terms.specs.Table.{row_of, IsBounded, IsTable};
ghost use Rattle.judge.specs.Sound.{Sound};
ghost use Rattle.judge.specs.Judged.{IsJudged};
ghost use Rattle.judge.specs.Kept.{AnswerKeeps};
ghost use Rattle.judge.specs.One.{HasOneAnswer};

use crate::answer::Answer;
use crate::demanding::checked_count;
use crate::passing::{NewCount, new_count};
use crate::replacing::replacement_answer;
use call_graph::first_through;
use oeis_terms::TermTable;
use program_store::{Overlay, Proposal, View};
use std::alloc::{AllocError, Global};

/// What is answered to a proposal, in a sound store: the first that holds. No other answer holds, and where it is
/// acceptance, the store with the program in it is sound and takes nothing from anybody.
pub fn judge<V: View>(
    alloc: Global,
    view: &V,
    terms: &TermTable,
    limit: u64,
    proposal: &Proposal,
) -> Result<Answer, AllocError>
    requires sound { Sound (V.store view.now) (row_of terms.now) limit }
    requires bounded { IsBounded terms.now }
    ensures judged { IfOk result (IsJudged (V.store view.now) (row_of terms.now) limit proposal.now.name proposal.now.program) }
    ensures kept { IfOk result (AnswerKeeps (V.store view.now) (row_of terms.now) limit proposal.now.name proposal.now.program) }
    ensures one { HasOneAnswer (V.store view.now) (row_of terms.now) limit proposal.now.name proposal.now.program }
{
    let answer = first_answer(alloc, view, terms, limit, proposal)?;
    Ok(answer)
}

// The first answer that holds.
fn first_answer<V: View>(
    alloc: Global,
    view: &V,
    terms: &TermTable,
    limit: u64,
    proposal: &Proposal,
) -> Result<Answer, AllocError>
    requires sound { Sound (V.store view.now) (row_of terms.now) limit }
    requires bounded { IsBounded terms.now }
    ensures judged { IfOk result (IsJudged (V.store view.now) (row_of terms.now) limit proposal.now.name proposal.now.program) }
    ensures table { IsTable terms.now }
{
    let name = proposal.name;
    let Some(row) = terms.row(name) else {
        return Ok(Answer::Unlisted);
    };
    if let Some(through) = first_through(alloc, view, &proposal.program, name)? {
        return Ok(Answer::Cycle { through });
    }
    let after = Overlay {
        base: view,
        name,
        program: &proposal.program,
    };
    let old = checked_count(view, name);
    match new_count(alloc, &after, row, name, limit, old)? {
        NewCount::Wrong { index, got } => Ok(Answer::WrongTerm { index, got }),
        NewCount::Checked(checked) => match view.published(name) {
            None => Ok(Answer::Accepted { checked }),
            Some(published) => {
                replacement_answer(alloc, view, proposal, limit, published, checked)
            }
        },
    }
}
