//! Makes the jobs of a session, and the table that holds them.

ghost use Rattle.std.specs.Prelude.{◌≡◌, ◌+◌, [], ◌∷◌, ◌++◌, length, IfOk, IfErr};
ghost use Rattle.tn_session.specs.{Jobs.IsMade, Makers.{AreAll, GivesJobs, IsMakerFault}};
ghost use Rattle.tn_session.specs.workers.Turning.{ids_of, jobs_of};

use crate::parties::Maker;
use crate::workers::Runner;
use std::alloc::Global;
use std::collections::VecDeque;
use tn_cores::SessionFault;
use tn_jobs::laws::one_job_changes;
use tn_jobs::{Job, JobId, Table};

/// The most jobs that run in the background.
const MAX_OTHERS: u8 = 15;

/// The jobs of a session: the foreground job with its number, and those in the background.
#[derive(Drop)]
pub(crate) struct Made<J> {
    pub(crate) table: Table,
    pub(crate) first: JobId,
    pub(crate) job: J,
    pub(crate) queue: VecDeque<Runner<J>>,
}

// Puts the first job into the foreground.
fn make_first<J: Job>(alloc: Global, job: J) -> Result<Made<J>, SessionFault>
    requires { J.fresh job }
    ensures made { IfOk result (λ made. IsMade J.fresh made) }
    ensures alone { IfOk result (λ made. made.queue.items ≡ []) }
    ensures first { IfOk result (λ made. made.job ≡ job) }
    ensures fault { IfErr result (λ fault. fault ≡ SessionFault.Memory) }
{
    let mut table = Table::new(alloc);
    let Ok(first) = table.add() else {
        return Err(SessionFault::Memory);
    };
    let Ok(()) = table.foreground(first) else {
        return Err(SessionFault::Memory);
    };
    one_job_changes();
    Ok(Made {
        table,
        first,
        job,
        queue: VecDeque::new(alloc),
    })
}

// Puts one more job into the background.
fn make_more<J: Job>(mut made: Made<J>, job: J) -> Result<Made<J>, SessionFault>
    requires made { IsMade J.fresh made }
    requires fresh { J.fresh job }
    ensures more { IfOk result (λ more. IsMade J.fresh more) }
    ensures one { IfOk result (λ more.
        length (ids_of more.queue.items) ≡ length (ids_of made.queue.items) + 1) }
    ensures first { IfOk result (λ more. more.job ≡ made.job) }
    ensures next { IfOk result
        (λ more. jobs_of more.queue.items ≡ jobs_of made.queue.items ++ job ∷ []) }
    ensures fault { IfErr result (λ fault. fault ≡ SessionFault.Memory) }
{
    let Ok(id) = made.table.add() else {
        return Err(SessionFault::Memory);
    };
    let Ok(()) = made.queue.push_back(Runner { id, job }) else {
        return Err(SessionFault::Memory);
    };
    Ok(made)
}

/// Makes all jobs.
///
/// # Errors
///
/// - `Start`: the maker has no first job.
/// - `Memory`: there is no memory for a job.
pub(crate) fn make_jobs<M: Maker>(
    alloc: Global,
    maker: &mut M,
) -> Result<Made<M::Job>, SessionFault>
    ensures made { IfOk result (λ made. IsMade M.Job.fresh made) }
    ensures all { IfOk result (λ made. AreAll (M.left maker.old) (ids_of made.queue.items)) }
    ensures in_order { IfOk result (λ made.
        GivesJobs M.gives maker.old (made.job ∷ jobs_of made.queue.items)) }
    ensures fault { IfErr result (IsMakerFault (M.left maker.old)) }
{
    let job = match maker.next(alloc) {
        Ok(Some(job)) => job,
        Ok(None) => return Err(SessionFault::Start),
        Err(_) => return Err(SessionFault::Memory),
    };
    let mut made = make_first(alloc, job)?;
    for _other in 0..MAX_OTHERS {
        match maker.next(alloc) {
            Ok(Some(job)) => made = make_more(made, job)?,
            Ok(None) => return Ok(made),
            Err(_) => return Err(SessionFault::Memory),
        }
    }
    Ok(made)
}
