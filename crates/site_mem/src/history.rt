//! A record of all that was asked, and what stands by it.
ghost use Rattle.std.specs.Prelude.{◌≡◌, OnOk};
ghost use Rattle.site_mem.specs.Replayed.{Replays};
ghost use Rattle.site_mem.specs.Kept.{files_kept};
ghost use Rattle.site_mem.specs.History.{HasFiles, HasFiles-prop};
ghost use Rattle.site_mem.specs.Record.{disk_of};
ghost use Rattle.site_model.specs.Counts.{max_servers};

use crate::asked::{Recorded, Request, recorded, request_of};
use crate::contents::Contents;
use crate::entry::Entry;
use crate::losses::Losses;
use std::alloc::{AllocError, Global};

/// All that was asked, the oldest first, and what stands now.
#[derive(Drop)]
pub struct History {
    pub entries: Vec<Entry>,
    /// What was lost since the last entry.
    pub lost: Losses,
    pub contents: Contents,
    ghost files: { HasFiles contents entries lost } by { HasFiles-prop contents entries lost },
    ghost said: { contents.said.items ≡ (disk_of entries.items lost.since).said },
}

impl History {
    ghost use Rattle.std.specs.Prelude.{◌≡◌, IfOk, OnOk, OnErr, ◌<◌, [], ℕ, slice_index};
    ghost use Rattle.site_mem.specs.Events.{event_now};
    ghost use Rattle.site_mem.specs.Record.{nothing, disk_of};
    ghost use Rattle.site_mem.specs.Calls.{at_call, loses_after};
    ghost use Rattle.site_mem.specs.Entered.{IsEntered, IsUnentered};
    ghost use Rattle.site_mem.specs.Lost.{Loses};
    ghost use Rattle.site_mem.specs.Replayed.{IsContentsAt};
    ghost use Rattle.site_mem.specs.Asking.{call_asked};

    pub fn new(alloc: Global) -> Self
        ensures entries { result.entries.items ≡ [] }
        ensures lost { (server : ℕ) → slice_index result.lost.since server ≡ 0 }
    {
        History {
            entries: Vec::new(alloc),
            lost: Losses::none(),
            contents: Contents::new(alloc),
        }
    }

    /// One entry more, carried out or only begun.
    pub fn enter(
        &mut self,
        alloc: Global,
        number: u64,
        request: &Request<'_>,
        is_done: bool,
    ) -> Result<(), AllocError>
        ensures ok { OnOk result (IsEntered number is_done (event_now request.now) self.old self.new) }
        ensures err { OnErr result (IsUnentered self.old self.new) }
    {
        self.entries.push(Entry {
            number,
            is_done,
            lost: self.lost,
            asked: recorded(alloc, request)?,
        })?;
        if let Err(error) = self.contents.try_out(alloc, request, is_done) {
            self.entries.pop();
            return Err(error);
        }
        self.lost = Losses::none();
        Ok(())
    }

    /// The server's files are lost, before the call with this number.
    pub fn lose(&mut self, server: u32, number: u64)
        requires server { server < max_servers }
        requires number { 0 < number }
        ensures entries { self.new.entries.items ≡ self.old.entries.items }
        ensures lost { Loses server number self.old.lost.since self.new.lost.since }
    {
        self.lost.add(server, number);
        self.contents.lose(&self.lost);
    }

    /// What stood and had been said as the call with this number was made.
    pub fn contents_at(&self, alloc: Global, number: u64) -> Result<Contents, AllocError>
        ensures { IfOk result (IsContentsAt
            (at_call number nothing self.now.entries.items self.now.lost.since)) }
    {
        let mut contents = Contents::new(alloc);
        for entry in &self.entries {
            if number <= entry.number {
                contents.lose_by(&entry.lost, number);
                return Ok(contents);
            }
            replay(alloc, &mut contents, entry)?;
        }
        contents.lose_by(&self.lost, number);
        Ok(contents)
    }

    /// The call with this number, if it is recorded.
    pub fn asked_at(&self, number: u64) -> Option<&Recorded>
        ensures { call_asked result ≡ (at_call number nothing self.now.entries.items
            self.now.lost.since).call }
    {
        for entry in &self.entries {
            if number <= entry.number {
                return if number == entry.number {
                    Some(&entry.asked)
                } else {
                    None
                };
            }
        }
        None
    }

    /// Whether a server lost its files after the call with this number, and before the next one that is recorded.
    pub fn loses_after(&self, number: u64) -> bool
        ensures { result ≡ loses_after number self.now.entries.items self.now.lost.since }
    {
        for entry in &self.entries {
            if number <= entry.number {
                return entry.lost.has_lost_after(number);
            }
        }
        self.lost.has_lost_after(number)
    }
}

// What an entry makes of what stood before it.
fn replay(alloc: Global, contents: &mut Contents, entry: &Entry) -> Result<(), AllocError>
    ensures { OnOk result (Replays entry.now contents.old contents.new) }
{
    contents.lose(&entry.lost);
    contents.try_out(alloc, &request_of(&entry.asked), entry.is_done)
}
