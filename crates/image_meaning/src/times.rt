//! The append times of needles and deletions.
ghost use Rattle.image_meaning.specs.Times.{LossesKeepTimes, NeedlesHaveTimes};

/// A plain volume has the append time of each needle that it has, and of no other.
pub fn needles_have_times()
    ensures { NeedlesHaveTimes }
{}

/// A survivable loss leaves the times of a sound plain volume.
pub fn losses_keep_times()
    ensures { LossesKeepTimes }
{}
