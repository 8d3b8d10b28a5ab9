//! The list of the unfinished jobs, by rising number.
#![tactic(auto)]

ghost use Rattle.std.specs.Prelude.{◌≡◌, None, Some, map, not, position};
ghost use Rattle.std.specs.List.{filter};
ghost use Rattle.job_board.specs.Jobs.{InOrder, IsOut, has_number, has_volume, set_work, work_of};

use crate::Job;

/// Where the job of the number stands.
pub(crate) fn place_of<W>(jobs: &[Job<W>], number: u64) -> Option<usize>
    ensures { result ≡ position (has_number number) jobs.now }
{
    jobs.iter().position(|job| job.number == number)
}

/// Where the volume's job stands.
pub(crate) fn place_of_volume<W>(jobs: &[Job<W>], volume: u32) -> Option<usize>
    ensures { result ≡ position (has_volume volume) jobs.now }
{
    jobs.iter().position(|job| job.volume == volume)
}

/// Takes the work of the job out.
pub(crate) fn take_work<W>(jobs: &mut Vec<Job<W>>, number: u64) -> Option<W>
    requires { InOrder jobs.old.items }
    ensures work { result ≡ work_of jobs.old.items number }
    ensures out { jobs.new.items ≡ map (set_work number None) jobs.old.items }
{
    let at = place_of(jobs, number)?;
    let job = &mut jobs[at];
    job.work.take()
}

/// Puts the work of the job back.
pub(crate) fn put_work<W: Drop>(jobs: &mut Vec<Job<W>>, number: u64, work: W)
    requires in_order { InOrder jobs.old.items }
    requires out { IsOut jobs.old.items number }
    ensures { jobs.new.items ≡ map (set_work number (Some work)) jobs.old.items }
{
    let at = place_of(jobs, number).unwrap();
    let job = &mut jobs[at];
    job.work = Some(work);
}

/// Takes the job out, if it is there.
pub(crate) fn remove_job<W: Drop>(jobs: &mut Vec<Job<W>>, number: u64)
    requires { InOrder jobs.old.items }
    ensures { jobs.new.items ≡ filter (λ job. not (has_number number job)) jobs.old.items }
{
    if let Some(at) = place_of(jobs, number) {
        let _job = jobs.remove(at);
    }
}
