//! How large a record so many jobs want.
ghost use Rattle.std.specs.Prelude.{◌≡◌, ◌+◌, ◌*◌, ◌<◌, ◌≤◌, max, IfOk, IfErr};
ghost use Rattle.tp_pool_advice.specs.Sizes.{JobsHaveRoom};

use tp_types::configs::Config;
use tp_types::limits::{MAX_RECORD_LIMIT, MIN_RECORD_LIMIT};
use tp_types::refusals::PoolError;

/// How many entries a job wants at most: that of its submission, and twelve that are owed after it, where a worker is made for it.
pub const ENTRIES_OF_A_JOB: u32 = 13;

/// How many entries the end of a pool wants.
pub const ENTRIES_OF_AN_END: u32 = 4;

/// These settings, with a record that has room for so many jobs: for their submissions, their runs, a worker for each, and the end
/// of the pool, under any policy that does not try a task again. Java keeps no record. BadLimit (3) where no record is as large.
pub fn for_jobs(settings: Config, jobs: usize) -> Result<Config, PoolError>
    ensures room { IfOk result (λ c. c.record_limit ≡ max (jobs * 13 + 4) 64) }
    ensures good { IfOk result (λ c. c.record_limit ≤ 1048576) }
    ensures others { IfOk result (λ c. c ≡ record settings { record_limit = c.record_limit }) }
    ensures refused { IfErr result (λ e. (e ≡ PoolError.BadLimit) × (1048576 < jobs * 13 + 4)) }
{
    let most = (MAX_RECORD_LIMIT - ENTRIES_OF_AN_END) / ENTRIES_OF_A_JOB;
    if jobs > most as usize {
        return Err(PoolError::BadLimit);
    }
    let wanted = jobs as u32 * ENTRIES_OF_A_JOB + ENTRIES_OF_AN_END;
    Ok(Config {
        record_limit: wanted.max(MIN_RECORD_LIMIT),
        ..settings
    })
}

/// The law of that room: while each entry of a record is a submission, or a step that was owed, the submission of none of so many jobs
/// is refused with BookFull (5).
pub fn law_jobs_have_room()
    ensures { JobsHaveRoom }
{}
