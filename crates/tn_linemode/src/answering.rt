//! A table of local characters over a list of triples, at either end.

ghost use Rattle.std.specs.Prelude.{◌≡◌, ◌+◌, ◌<◌, ◌++◌, Option, length, take, OnOk, OnErr, vec_len};
ghost use Rattle.std.specs.Prelude.{vec_capacity};
ghost use Rattle.tn_codes.specs.declared.triples.Triple.{Triple};
ghost use Rattle.tn_linemode.specs.Exchange.{table_after, answers_along};

use crate::triples::push_answer;
use std::alloc::AllocError;
use tn_codes::Triple;

/// A table that takes triples one by one, and answers them.
pub trait Reacts {
    /// The table after one triple.
    ghost next: { Self → Triple → Self };

    /// The answer to a triple.
    ghost answer: { Self → Triple → Option Triple };

    fn react(&mut self, triple: Triple) -> Option<Triple>
        ensures table { self.new ≡ next self.old triple }
        ensures answer { result ≡ answer self.old triple };
}

/// Takes a list of triples, and appends the answers to it, at most one for each triple.
///
/// # Errors
///
/// - `AllocError`: there is no memory for the answers; neither the table nor `answers` has changed.
pub fn react_whole<T: Reacts + Copy>(
    table: &mut T,
    triples: &[Triple],
    answers: &mut Vec<Triple>,
) -> Result<(), AllocError>
    ensures table { OnOk result (table.new ≡ table_after T.next table.old triples.now) }
    ensures answers { let replies = answers_along T.next T.answer table.old triples.now in
        OnOk result (answers.new.items ≡ answers.old.items ++ replies) }
    ensures err { OnErr result (table.new ≡ table.old) }
    ensures err_answers { OnErr result (answers.new.items ≡ answers.old.items) }
    ensures full { let replies = answers_along T.next T.answer table.old triples.now in
        OnErr result (vec_capacity answers.old < vec_len answers.old + length replies) }
{
    let answered = answers.len();
    let mut changed = *table;
    if let Err(fault) = react_to_all(&mut changed, triples, answers) {
        answers.truncate(answered);
        return Err(fault);
    }
    *table = changed;
    Ok(())
}

// Takes a list of triples. After a refusal the answers begin as they did.
fn react_to_all<T: Reacts>(
    table: &mut T,
    triples: &[Triple],
    answers: &mut Vec<Triple>,
) -> Result<(), AllocError>
    ensures table { OnOk result (table.new ≡ table_after T.next table.old triples.now) }
    ensures answers { let replies = answers_along T.next T.answer table.old triples.now in
        OnOk result (answers.new.items ≡ answers.old.items ++ replies) }
    ensures err { OnErr result (take (vec_len answers.old) answers.new.items ≡ answers.old.items) }
    ensures full { let replies = answers_along T.next T.answer table.old triples.now in
        OnErr result (vec_capacity answers.old < vec_len answers.old + length replies) }
{
    for triple in triples {
        let answer = table.react(*triple);
        push_answer(answers, answer)?;
    }
    Ok(())
}
