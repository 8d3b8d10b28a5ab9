//! The jobs of a store that aren't finished: each has a number, a volume and its work.
#![tactic(auto)]

ghost use Rattle.std.specs.Prelude.{◌≡◌, ◌+◌, ◌^◌, ◌<◌, ◌≤◌, [], ◌∷◌, ◌++◌, Some, None, IfErr, IfOk, IfSome, All, find};
ghost use Rattle.job_board.specs.Jobs.{IsBoard, IsOut, first_number, has_volume, number_for, volume_for, with_job, with_work, without, work_of};

mod unfinished;

use std::alloc::{AllocError, Global};
use std::marker::Model;
use unfinished::{place_of, place_of_volume, put_work, remove_job, take_work};

/// A job that isn't finished.
#[derive(Drop)]
pub struct Job<W> {
    pub number: u64,
    pub volume: u32,
    /// The work, or `None` while it is out.
    pub work: Option<W>,
}

/// Want of memory, with the work of the job that wasn't started.
#[derive(Debug, Drop)]
pub struct AllocFailed<W> {
    pub work: W,
}

/// Drops the work.
impl<W: Drop> From<AllocFailed<W>> for AllocError {
    fn from(_failed: AllocFailed<W>) -> AllocError {
        AllocError
    }
}

/// The unfinished jobs, at most one for a volume. Numbers rise from 1 by one with each start.
///
/// The work of a job can be taken out, so that it is run while the board is read, and is given back
/// after.
#[derive(Drop)]
pub struct Board<W> {
    jobs: Vec<Job<W>>,
    started: u64,
}

impl<W> Model for Board<W> {
    ghost use Rattle.std.specs.Prelude.{◌+◌};
    ghost use Rattle.job_board.specs.Jobs.{IsBoard, Jobs, coded_jobs};

    ghost Value = { Jobs W };

    ghost coded = { coded_jobs W.code };

    ghost view = { λ b. record { unfinished = b.jobs.items; next = b.started + 1 } };

    ghost invariant = { λ b. IsBoard (record { unfinished = b.jobs.items; next = b.started + 1 }) };
}

impl<W: Drop> Board<W> {
    /// The board of no job. It takes no memory.
    pub fn new(alloc: Global) -> Board<W>
        ensures { result ≡ record { unfinished = []; next = 1 } }
    {
        Board {
            jobs: Vec::new(alloc),
            started: 0,
        }
    }

    /// Starts a job and answers its number, or hands the work back for want of memory.
    pub fn start(&mut self, volume: u32, work: W) -> Result<u64, AllocFailed<W>>
        requires free { find (has_volume volume) self.old.unfinished ≡ None }
        requires number { self.old.next < 2 ^ 64 }
        ensures number { IfOk result (λ number. number ≡ self.old.next) }
        ensures started { IfOk result (λ number. self.new ≡ with_job self.old volume work) }
        ensures unchanged { IfErr result (λ failed. (failed.work ≡ work) × (self.new ≡ self.old)) }
    {
        let number = self.started + 1;
        let job = Job {
            number,
            volume,
            work: Some(work),
        };
        match self.jobs.push(job) {
            Ok(()) => {
                self.started = number;
                Ok(number)
            }
            Err(failed) => {
                let Job { work, .. } = failed.value;
                Err(AllocFailed {
                    work: work.unwrap(),
                })
            }
        }
    }

    /// Takes the work of the job out, if the job is unfinished and its work isn't out.
    pub fn take(&mut self, job: u64) -> Option<W>
        ensures work { result ≡ work_of self.old.unfinished job }
        ensures out { self.new ≡ with_work self.old job None }
    {
        take_work(&mut self.jobs, job)
    }

    /// Gives the work of the job back.
    pub fn give(&mut self, job: u64, work: W)
        requires { IsOut self.old.unfinished job }
        ensures { self.new ≡ with_work self.old job (Some work) }
    {
        put_work(&mut self.jobs, job, work);
    }

    /// The number of the volume's unfinished job.
    pub fn job_of(&self, volume: u32) -> Option<u64>
        ensures number { result ≡ number_for self.now.unfinished volume }
        ensures board { IsBoard self.now }
    {
        let at = place_of_volume(&self.jobs, volume)?;
        Some(self.jobs[at].number)
    }

    /// The volume of the unfinished job.
    pub fn volume_of(&self, job: u64) -> Option<u32>
        ensures volume { result ≡ volume_for self.now.unfinished job }
        ensures board { IsBoard self.now }
    {
        let at = place_of(&self.jobs, job)?;
        Some(self.jobs[at].volume)
    }

    /// Takes the job off the board, if it is there, and drops its work.
    pub fn finish(&mut self, job: u64)
        ensures { self.new ≡ without self.old job }
    {
        remove_job(&mut self.jobs, job);
    }

    /// The number of the unfinished job that was started first, which is the lowest.
    pub fn first(&self) -> Option<u64>
        ensures first { result ≡ first_number self.now.unfinished }
        ensures lowest { IfSome result
            (λ number. All (λ job. number ≤ job.number) self.now.unfinished) }
        ensures board { IsBoard self.now }
    {
        Some(self.jobs.first()?.number)
    }
}

#[cfg(test)]
mod tests {
    use super::*;
    use std::test::Fail;

    #[test]
    fn numbers_rise_and_a_finished_job_leaves_its_volume_free(rt: HostRuntime) -> Result<(), Fail> {
        let mut board = Board::new(rt.alloc());
        assert_eq!(rt; board.first(), None);
        assert_eq!(rt; board.start(7, 70)?, 1);
        assert_eq!(rt; board.start(4, 40)?, 2);
        assert_eq!(rt; board.first(), Some(1));
        assert_eq!(rt; board.job_of(4), Some(2));
        assert_eq!(rt; board.volume_of(1), Some(7));
        board.finish(1);
        assert_eq!(rt; board.job_of(7), None);
        assert_eq!(rt; board.start(7, 71)?, 3);
        assert_eq!(rt; board.first(), Some(2));
        Ok(())
    }

    #[test]
    fn work_is_taken_once_and_given_back(rt: HostRuntime) -> Result<(), Fail> {
        let mut board = Board::new(rt.alloc());
        let job = board.start(7, 70)?;
        assert_eq!(rt; board.take(job), Some(70));
        assert_eq!(rt; board.take(job), None);
        assert_eq!(rt; board.take(9), None);
        board.give(job, 71);
        assert_eq!(rt; board.take(job), Some(71));
        Ok(())
    }
}
