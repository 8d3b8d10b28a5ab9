//! Calls on the second file of a plan, at the second of two servers in memory.
ghost use Rattle.std.specs.Prelude.{◌≡◌, true, false, IsTrue, IfOk, string_bytes};
ghost use Rattle.site_mem.specs.Site.{counts_at, disk_at};
ghost use Rattle.file_names.specs.declared.Kind.TheVariants.{Ecx};
ghost use Rattle.file_names.specs.Names.{name_bytes};
ghost use Rattle.plan_steps.specs.Progressing.{running};
ghost use Rattle.plan_run.specs.Finishing.{IsNamedFile, TempStands};
ghost use Rattle.plan_run.specs.Writing.{HasRoom};

use crate::{clear_file, grow_file, put_file, register_file, sync_file};
use file_names::{FileName, Kind, spell};
use plan_steps::{FileState, Plan, Progress, Stage};
use site_mem::{MemSite, Tear};
use site_model::{DeviceFault, Site};
use std::alloc::{AllocError, Global};
use std::process::Abort;
use std::test::Fail;
use stripe_layout::{Geometry, Info};
use world_model::types::{Command, Ratio};

const VOLUME: u32 = 7;

const SERVERS: u32 = 2;

// The server of the file.
const SERVER: u32 = 1;

// The place of the file in the list.
const AT: usize = 1;

const TEMP: &str = "7.ecx.tmp";

const NAME: &str = "7.ecx";

const BYTES: [u8; 5] = [1, 2, 3, 4, 5];

const OTHERS: [u8; 2] = [9, 8];

// The file before it in the list.
const FIRST: FileState = FileState {
    server: 0,
    kind: Kind::Vif,
    length: 60,
    stage: Stage::Registered,
};

fn plan(alloc: Global) -> Plan
    ensures { result.volume ≡ 7 }
{
    Plan {
        command: Command::Encode {
            ratio: Ratio::ThreeTwo,
        },
        volume: VOLUME,
        home: 0,
        info: Info {
            dat_size: 48,
            geometry: Geometry {
                ratio: Ratio::ThreeTwo,
                large: 16,
                small: 8,
            },
        },
        entries: Vec::new(alloc),
        entry_count: 0,
        deleted: Vec::new(alloc),
        places: Vec::new(alloc),
        targets: Vec::new(alloc),
        moves: Vec::new(alloc),
    }
}

fn spelled(alloc: Global, temp: bool) -> Result<String, AllocError>
    ensures { IfOk result (λ text. string_bytes text
        ≡ name_bytes (record { volume = 7; kind = Ecx; temp = temp })) }
{
    spell(
        alloc,
        &FileName {
            volume: VOLUME,
            kind: Kind::Ecx,
            temp,
        },
    )
}

// A call on the file.
#[derive(Clone, Copy, Debug)]
enum Call<'a> {
    Grow(&'a [u8]),
    Put,
    Sync,
    Register,
    Clear,
}

// A plan under way, with the names of the file.
#[derive(Drop)]
struct Run {
    site: MemSite,
    plan: Plan,
    progress: Progress,
    temp: String,
    name: String,
    ghost servers: { site.servers ≡ 2 },
    ghost volume: { plan.volume ≡ 7 },
    ghost temp_is: { string_bytes temp ≡ name_bytes (record { volume = 7; kind = Ecx; temp = true }) },
    ghost name_is: { string_bytes name ≡ name_bytes (record { volume = 7; kind = Ecx; temp = false }) },
}

impl Run {
    fn new(alloc: Global, length: u64, stage: Stage) -> Result<Run, AllocError>
        ensures { IfOk result (λ run. (counts_at run.site).calls ≡ 0) }
    {
        let mut files = Vec::new(alloc);
        files.push(FIRST)?;
        files.push(FileState {
            server: SERVER,
            kind: Kind::Ecx,
            length,
            stage,
        })?;
        Ok(Run {
            site: MemSite::new(alloc, SERVERS)?,
            plan: plan(alloc),
            progress: Progress { files, place: 8 },
            temp: spelled(alloc, true)?,
            name: spelled(alloc, false)?,
        })
    }

    // With a final file of other bytes, and with the bytes as a temporary one, which one call appends.
    fn with_both(alloc: Global) -> Result<Run, Fail> {
        let mut run = Run::new(alloc, 5, Stage::Writing)?;
        run.site.add_file(SERVER, NAME, &OTHERS)?;
        run.site.append(SERVER, TEMP, &BYTES)?;
        Ok(run)
    }

    // Whether the second file of the list is the one that is named.
    fn has_file(&self) -> bool
        ensures { IsTrue result → IsNamedFile self.now.plan.volume self.now.site.servers
            self.now.progress.files.items 1 (string_bytes self.now.temp) (string_bytes self.now.name) }
    {
        match self.progress.files.get(AT) {
            Some(file) => file.server < SERVERS && file.kind == Kind::Ecx,
            None => false,
        }
    }

    // Whether it stands as a temporary one.
    fn has_temp(&self) -> bool
        ensures { IsTrue result → TempStands (running self.now.plan self.now.progress) 1
            (disk_at self.now.site).files }
    {
        match self.progress.files.get(AT) {
            Some(file) => file.kind == Kind::Ecx
                && self.site.file(file.server, &self.temp).is_some(),
            None => false,
        }
    }

    // Whether so many bytes more can be counted.
    fn has_room(&self, more: usize) -> bool
        ensures { IsTrue result → HasRoom self.now.progress.files.items 1 more }
    {
        match self.progress.files.get(AT) {
            Some(file) => file.length.checked_add(more as u64).is_some(),
            None => false,
        }
    }

    fn make(&mut self, rt: &impl Abort, call: Call<'_>) -> Result<(), DeviceFault> {
        assert!(rt; self.has_file());
        self.carry_out(rt, call)
    }

    fn carry_out(&mut self, rt: &impl Abort, call: Call<'_>) -> Result<(), DeviceFault>
        requires { IsNamedFile self.old.plan.volume self.old.site.servers
            self.old.progress.files.items 1 (string_bytes self.old.temp) (string_bytes self.old.name) }
    {
        match call {
            Call::Grow(piece) => {
                assert!(rt; self.has_room(piece.len()));
                grow_file(
                    &mut self.site,
                    &self.plan,
                    &mut self.progress,
                    AT,
                    &self.temp,
                    &self.name,
                    piece,
                )
            }
            Call::Put => put_file(
                &mut self.site,
                &self.plan,
                &mut self.progress,
                AT,
                &self.temp,
                &self.name,
                &BYTES,
            ),
            Call::Sync => {
                assert!(rt; self.has_temp());
                sync_file(
                    &mut self.site,
                    &self.plan,
                    &mut self.progress,
                    AT,
                    &self.temp,
                    &self.name,
                )
            }
            Call::Register => {
                assert!(rt; self.has_temp());
                register_file(
                    &mut self.site,
                    &self.plan,
                    &mut self.progress,
                    AT,
                    &self.temp,
                    &self.name,
                )
            }
            Call::Clear => clear_file(
                &mut self.site,
                &self.plan,
                &mut self.progress,
                AT,
                &self.temp,
                &self.name,
            ),
        }
    }

    // Sees the list, with this state of the file.
    fn see(&self, rt: &impl Abort, length: u64, stage: Stage) {
        let file = FileState {
            server: SERVER,
            kind: Kind::Ecx,
            length,
            stage,
        };
        assert_eq!(rt; self.progress.files.as_slice(), [FIRST, file].as_slice());
        assert_eq!(rt; self.progress.place, 8);
    }
}

// Sees the bytes under the temporary name and under the final one.
fn see_files(rt: &impl Abort, site: &MemSite, temp: Option<&[u8]>, last: Option<&[u8]>) {
    assert_eq!(rt; site.file(SERVER, TEMP), temp);
    assert_eq!(rt; site.file(SERVER, NAME), last);
}

#[test]
fn pieces_stand_one_behind_the_other(rt: HostRuntime) -> Result<(), Fail> {
    let mut run = Run::new(rt.alloc(), 0, Stage::Absent)?;
    run.make(&rt, Call::Grow(&[1, 2, 3]))?;
    run.see(&rt, 3, Stage::Writing);
    run.make(&rt, Call::Grow(&[4, 5]))?;
    run.see(&rt, 5, Stage::Writing);
    see_files(&rt, &run.site, Some(&[1, 2, 3, 4, 5]), None);
    Ok(())
}

#[test]
fn a_file_is_put_under_its_final_name(rt: HostRuntime) -> Result<(), Fail> {
    let mut run = Run::new(rt.alloc(), 0, Stage::Absent)?;
    run.make(&rt, Call::Put)?;
    run.see(&rt, 5, Stage::Registered);
    see_files(&rt, &run.site, None, Some(&BYTES));
    Ok(())
}

#[test]
fn a_temporary_file_becomes_firm_and_then_final(rt: HostRuntime) -> Result<(), Fail> {
    let mut run = Run::with_both(rt.alloc())?;
    run.make(&rt, Call::Sync)?;
    run.see(&rt, 5, Stage::Synced);
    run.make(&rt, Call::Register)?;
    run.see(&rt, 5, Stage::Registered);
    see_files(&rt, &run.site, None, Some(&BYTES));
    assert!(rt; run.site.calls() == 3);
    let before_the_rename = run.site.left(rt.alloc(), 3, Tear::None)?;
    see_files(&rt, &before_the_rename, Some(&BYTES), Some(&OTHERS));
    Ok(())
}

#[test]
fn a_final_file_is_cleared_and_so_is_none(rt: HostRuntime) -> Result<(), Fail> {
    let mut run = Run::with_both(rt.alloc())?;
    for _ in 0..2 {
        run.make(&rt, Call::Clear)?;
        run.see(&rt, 5, Stage::Gone);
        see_files(&rt, &run.site, Some(&BYTES), None);
    }
    Ok(())
}

#[test]
fn a_failing_server_is_told_and_the_state_stays(rt: HostRuntime) -> Result<(), Fail> {
    let cases = [
        (Call::Grow(&[6]), 1),
        (Call::Put, 5),
        (Call::Sync, 1),
        (Call::Register, 1),
        (Call::Clear, 2),
    ];
    for (call, device_calls) in cases {
        for number in 0..device_calls {
            let mut run = Run::with_both(rt.alloc())?;
            run.site.fail_call(2 + number)?;
            let made = run.make(&rt, call);
            assert_eq!(rt; made, Err(DeviceFault { server: 1 }), "{call:?}, {number}");
            run.see(&rt, 5, Stage::Writing);
            assert_eq!(rt; run.site.calls(), 2 + number);
        }
    }
    Ok(())
}
