//! What the table is told as shards come and go. For `run_step`, to come.
ghost use Rattle.std.specs.Prelude.{◌≡◌, ◌<◌, ℕ, IfNone, IfSome, IsTrue, MatchResult, false, true};
ghost use Rattle.std.specs.Option.{ForSome};
ghost use Rattle.file_names.specs.Names.{IsKind};
ghost use Rattle.shard_table.specs.Table.{IsAdded};
ghost use Rattle.plan_steps.specs.Walk.{has_file};
ghost use Rattle.image_meaning.specs.Share.{share_of};
ghost use Rattle.plan_steps.specs.declared.step.Step.TheVariants as step;
ghost use Rattle.plan_steps.specs.AsTold.{StandsAsTold};
ghost use Rattle.plan_steps.specs.Progressing.{running};
ghost use Rattle.plan_steps.specs.Stepping.{IsDue};
ghost use Rattle.plan_run.specs.Places.{HasTable, TellsPlace, TellsTable};
ghost use Rattle.plan_run.specs.Stepping.{FailsWriting, IsAtWork, Steps, TakesFew};

use crate::names::FileNames;
use crate::steps::{clear_step, register_step};
use file_names::Kind;
use plan_steps::{Plan, Progress};
use shard_table::ShardTable;
use site_model::{DeviceFault, Site};

/// Tells the table the place of a file, if it is a shard. It takes no memory.
pub(crate) fn tell_place(table: &mut ShardTable, volume: u32, kind: Kind, place: Option<u32>)
    requires added { IsAdded table.old volume }
    requires kind { IsKind kind }
    requires server { ForSome place (λ server. server < table.old.servers) }
    ensures { TellsPlace volume kind place table.old table.new }
{
    match kind {
        Kind::Shard(shard) => table.set(volume, shard, place),
        _ => {}
    }
}

/// The lowest of so many servers where the file stands.
pub(crate) fn holder_of(plan: &Plan, progress: &Progress, servers: u32, kind: Kind) -> Option<u32>
    ensures there { IfSome result (λ server. server < servers) }
    ensures has { IfSome result (λ server. has_file plan.now progress.now.files.items server kind ≡ true) }
    ensures none { IfNone result ((server : ℕ) → server < servers
        → has_file plan.now progress.now.files.items server kind ≡ false) }
{
    for server in 0..servers {
        if plan.has_file(progress, server, kind) {
            return Some(server);
        }
    }
    None
}

/// Gives a file its final name that is firm, and tells the table where it stands.
pub(crate) fn name_step<T: Site>(
    site: &mut T,
    plan: &Plan,
    progress: &mut Progress,
    names: &FileNames,
    table: &mut ShardTable,
    server: u32,
    kind: Kind,
) -> Result<(), DeviceFault>
    requires work { IsAtWork (running plan.now progress.old) (T.servers site.old) names.now }
    requires due { IsDue (running plan.now progress.old) (step.Register server kind) }
    requires told { IsTrue T.tells → StandsAsTold plan.now progress.old.files.items
        (share_of (T.disk site.old).files plan.now.volume) }
    requires table { HasTable (running plan.now progress.old) (T.servers site.old) table.old }
    ensures steps { Steps (IsTrue T.tells) (running plan.now progress.old) (step.Register server kind)
        (running plan.now progress.new) result (T.disk site.old) (T.disk site.new) }
    ensures few { TakesFew T.counts T.servers result site.old site.new }
    ensures wrote { FailsWriting T.counts result site.old site.new }
    ensures table { MatchResult result (λ _. TellsTable (running plan.now progress.old)
        (running plan.now progress.new) table.old table.new) (λ _. table.new ≡ table.old) }
{
    register_step(site, plan, progress, names, server, kind)?;
    tell_place(table, plan.volume, kind, Some(server));
    Ok(())
}

/// Removes a file that was found, and tells the table where it stands besides, or that it stands nowhere.
pub(crate) fn drop_step<T: Site>(
    site: &mut T,
    plan: &Plan,
    progress: &mut Progress,
    names: &FileNames,
    table: &mut ShardTable,
    server: u32,
    kind: Kind,
) -> Result<(), DeviceFault>
    requires work { IsAtWork (running plan.now progress.old) (T.servers site.old) names.now }
    requires due { IsDue (running plan.now progress.old) (step.Unregister server kind) }
    requires table { HasTable (running plan.now progress.old) (T.servers site.old) table.old }
    ensures steps { Steps (IsTrue T.tells) (running plan.now progress.old) (step.Unregister server kind)
        (running plan.now progress.new) result (T.disk site.old) (T.disk site.new) }
    ensures few { TakesFew T.counts T.servers result site.old site.new }
    ensures table { MatchResult result (λ _. TellsTable (running plan.now progress.old)
        (running plan.now progress.new) table.old table.new) (λ _. table.new ≡ table.old) }
{
    clear_step(site, plan, progress, names, server, kind)?;
    let place = holder_of(plan, progress, table.servers(), kind);
    tell_place(table, plan.volume, kind, place);
    Ok(())
}
