//! A site in memory.
ghost use Rattle.std.specs.Prelude.{◌≡◌, ◌+◌, ◌<◌, ◌≤◌, ℕ, IsTrue, slice_index};
ghost use Rattle.site_mem.specs.Calls.{are_numbered, are_within, are_calls};
ghost use Rattle.site_model.specs.Counts.{max_servers};

use crate::asked::{Asked, Request};
use crate::counting::count;
use crate::history::History;
use crate::listed::Listed;
use crate::stored::Stored;
use crate::tear::Tear;
use site_model::{Failed, Site, SiteError, Tally};
use std::alloc::{AllocError, Global};

/// A site in memory, which tells its contents. It keeps its files and a record of all calls that change them.
/// Calls can be listed that are to fail.
#[derive(Drop)]
pub struct MemSite {
    alloc: Global,
    servers: u32,
    history: History,
    listed: Listed,
    tally: Tally,
    wants: u64,
    ghost some: { 0 < servers },
    ghost few: { servers ≤ max_servers },
    ghost numbered: { IsTrue (are_numbered tally.calls history.entries.items) },
    ghost since: { (server : ℕ) → slice_index history.lost.since server ≤ tally.calls + 1 },
    ghost within: { IsTrue (are_within servers history.entries.items) },
    ghost asked: { IsTrue (are_calls history.entries.items) },
}

impl MemSite {
    ghost use Rattle.std.specs.Prelude.{◌≡◌, ◌<◌, ◌≤◌, ◌+◌, IsTrue, IsErr, OnOk, is_err, length, take, drop};
    ghost use Rattle.site_mem.specs.Events.{event_now};
    ghost use Rattle.site_mem.specs.Effects.{Effect, IsDone};
    ghost use Rattle.site_mem.specs.Counting.{CountsEvent, IsCall, IsWithin};
    ghost use Rattle.site_mem.specs.Site.{disk_at, counts_at, next_at, fails_at, Makes, Looks};
    ghost use Rattle.site_model.specs.Counts.{CountsRead};
    ghost use Rattle.site_model.specs.Disk.{size_of, bytes_of};

    // One call more that can change something.
    fn make(&mut self, request: Request<'_>) -> Result<(), Failed>
        requires call { IsCall (event_now request) }
        requires within { IsWithin self.old.servers (event_now request) }
        ensures done { OnOk result (IsDone (event_now request.entry) (disk_at self.old) (disk_at self.new)) }
        ensures effect { Effect (event_now request.entry) (disk_at self.old) (disk_at self.new) }
        ensures counts { CountsEvent (event_now request.entry) (counts_at self.old) (counts_at self.new)
            (IsErr result) }
        ensures servers { self.new.servers ≡ self.old.servers }
        ensures made { Makes (event_now request.entry) self.old self.new (is_err result) }
    {
        let number = self.tally.next();
        let is_listed = self.listed.has_call(number);
        let entered = self
            .history
            .enter(self.alloc, number, &request, !is_listed)
            .is_ok();
        let failed = is_listed | !entered;
        self.wants = self.wants.saturating_add(u64::from(!is_listed & !entered));
        count(&mut self.tally, &request, failed);
        if failed { Err(Failed) } else { Ok(()) }
    }

    // One call more that changes nothing.
    fn look(&mut self, server: u32, width: usize, failed: bool)
        requires { server < self.old.servers }
        ensures same { disk_at self.new ≡ disk_at self.old }
        ensures counts { CountsRead server width (counts_at self.old) (counts_at self.new) (IsTrue failed) }
        ensures servers { self.new.servers ≡ self.old.servers }
        ensures looked { Looks failed self.old self.new (IsTrue failed) }
    {
        self.tally.count_read(server, width, failed);
    }

    // How many bytes a file has, if it stands.
    fn length(&self, server: u32, name: &str) -> Option<u64>
        ensures { result ≡ size_of ((disk_at self.now).files (server, name.now)) }
    {
        match self.file(server, name) {
            Some(bytes) => Some(bytes.len() as u64),
            None => None,
        }
    }

    // Fills `out` from a file.
    fn fill(&self, server: u32, name: &str, at: u64, out: &mut [u8])
        requires { at + length out.old ≤ length (bytes_of ((disk_at self.now).files (server, name.now))) }
        ensures { out.new ≡ take (length out.old)
            (drop at (bytes_of ((disk_at self.now).files (server, name.now)))) }
    {
        if let Some(bytes) = self.file(server, name) {
            let rest = &bytes[at as usize..];
            out.copy_from_slice(&rest[..out.len()]);
        }
    }

    // Whether the next call is listed.
    fn fails_next(&self) -> bool
        ensures { result ≡ fails_at self.now (next_at self.now) }
    {
        self.listed.has_call(self.tally.next())
    }
}

impl MemSite {
    ghost use Rattle.std.specs.Prelude.{◌≡◌, ◌≢◌, ◌<◌, ◌≤◌, ◌||◌, ◌==◌, if◌then◌else◌, ℕ, false, [], Some, None, IfOk, OnOk, OnErr, min};
    ghost use Rattle.site_model.specs.Disk.{Place, standing};
    ghost use Rattle.site_mem.specs.Events.{added, told, done, put_file};
    ghost use Rattle.site_mem.specs.Kept.{seen, place_kept, file_of};
    ghost use Rattle.site_mem.specs.Torn.{IsTorn, IsLeftBy, torn_file, firm_of};
    ghost use Rattle.site_mem.specs.Failing.{lower};
    ghost use Rattle.site_mem.specs.Site.{disk_at, counts_at, wants_at, fails_at, reads_fail_at, call_at, loses_at, IsLeftSinceStart, IsFresh, IsUnused, KeepsUnused, KeepsAll, KeepsListed, KeepsCounts, KeepsCalls};

    /// A site of so many servers, with no file, nothing said, no call made and none listed.
    #[tactic(auto, unfolding(crate::specs::Held::disk_held))]
    pub fn new(alloc: Global, servers: u32) -> Result<MemSite, AllocError>
        requires some { 0 < servers }
        requires few { servers ≤ max_servers }
        ensures { IfOk result (IsFresh servers) }
    {
        Ok(MemSite {
            alloc,
            servers,
            history: History::new(alloc),
            listed: Listed::new(alloc),
            tally: Tally::new(),
            wants: 0,
        })
    }

    /// A firm file, before the first call. It takes the place of one that was added before.
    pub fn add_file(&mut self, server: u32, name: &str, bytes: &[u8]) -> Result<(), AllocError>
        requires server { server < self.old.servers }
        requires none_made { (counts_at self.old).calls ≡ 0 }
        ensures ok { OnOk result (disk_at self.new ≡ done (added (server, name.now) bytes.now)
            (disk_at self.old)) }
        ensures err { OnErr result (disk_at self.new ≡ disk_at self.old) }
        ensures counts { KeepsCounts self.old self.new }
        ensures listed { KeepsListed self.old self.new }
    {
        let request = Asked::Add {
            server,
            name,
            bytes,
        };
        self.history.enter(self.alloc, 0, &request, true)
    }

    /// The call with this number, from 1, is to fail.
    pub fn fail_call(&mut self, call: u64) -> Result<(), AllocError>
        ensures ok { OnOk result ((number : ℕ)
            → fails_at self.new number ≡ (number == call) || fails_at self.old number) }
        ensures err { OnErr result ((number : ℕ) → fails_at self.new number ≡ fails_at self.old number) }
        ensures reads { (server : ℕ) → reads_fail_at self.new server ≡ reads_fail_at self.old server }
        ensures kept { KeepsAll self.old self.new }
    {
        self.listed.add_call(call)
    }

    /// Each `read` at the server is to fail, from the call with this number on. The lowest number counts.
    pub fn fail_reads(&mut self, server: u32, from: u64)
        requires { server < self.old.servers }
        ensures here { reads_fail_at self.new server ≡ Some (lower from (reads_fail_at self.old server)) }
        ensures others { (other : ℕ) → other ≢ server
            → reads_fail_at self.new other ≡ reads_fail_at self.old other }
        ensures calls { (number : ℕ) → fails_at self.new number ≡ fails_at self.old number }
        ensures kept { KeepsAll self.old self.new }
    {
        self.listed.add_reads(server, from);
    }

    /// The server's files are gone.
    pub fn lose(&mut self, server: u32)
        requires { server < self.old.servers }
        ensures files { (k : Place) → (disk_at self.new).files k
            ≡ (if k.0 == server then None else (disk_at self.old).files k) }
        ensures said { (disk_at self.new).said ≡ (disk_at self.old).said }
        ensures past { (disk_at self.new).past ≡ (disk_at self.old).past }
        ensures kept { KeepsCounts self.old self.new }
        ensures listed { KeepsListed self.old self.new }
        ensures calls { KeepsCalls self.old self.new }
    {
        self.history.lose(server, self.tally.next());
    }

    /// The site that a stop within this call leaves: all of it firm, with no call made and none listed.
    ///
    /// The tear says what stays of the bytes that weren't firm. With `Tear::None` nothing of the call happened
    /// either; with another one an append, a cut, a rename or a remove did. Of what is said in the call nothing
    /// was said with `Tear::None`, the first half with `Tear::Half`, and else the whole.
    ///
    /// It is what a stop since the site's start may leave, whoever made the call, unless the files of a server
    /// were lost between this call and the next.
    pub fn left(&self, alloc: Global, call: u64, tear: Tear) -> Result<MemSite, AllocError>
        requires some { 0 < call }
        requires made { call ≤ (counts_at self.now).calls }
        ensures torn { IfOk result (λ m. IsTorn tear (call_at self.now call) (disk_at m)) }
        ensures left { IfOk result (λ m. IsLeftBy (call_at self.now call) (disk_at m)) }
        ensures since_start { IfOk result (λ m. loses_at self.now call ≡ false
            → IsLeftSinceStart self.now (disk_at m)) }
        ensures unused { IfOk result (IsUnused self.now.servers) }
    {
        let mut contents = self.history.contents_at(alloc, call)?;
        contents.reach(alloc, self.history.asked_at(call), tear)?;
        let mut site = MemSite::new(alloc, self.servers)?;
        site.tell(&contents.said)?;
        for file in &contents.files {
            site.add_torn(alloc, file, tear)?;
        }
        Ok(site)
    }

    /// Whether a server lost its files after the call with this number, and before the next call that can change
    /// something.
    #[tactic(auto, unfolding(crate::specs::Held::loss_held))]
    pub fn loses_after(&self, call: u64) -> bool
        ensures { result ≡ loses_at self.now call }
    {
        self.history.loses_after(call)
    }

    // Something that was said, before the first call.
    fn tell(&mut self, bytes: &[u8]) -> Result<(), AllocError>
        ensures ok { OnOk result (disk_at self.new ≡ done (told bytes.now) (disk_at self.old)) }
        ensures unused { OnOk result (KeepsUnused self.old self.new) }
    {
        self.history
            .enter(self.alloc, 0, &Asked::Tell { bytes }, true)
    }

    // What a stop leaves of a file, before the first call.
    fn add_torn(&mut self, alloc: Global, file: &Stored, tear: Tear) -> Result<(), AllocError>
        requires server { file.now.server < self.old.servers }
        requires none_made { (counts_at self.old).calls ≡ 0 }
        requires absent { (disk_at self.old).files (place_kept file.now) ≡ None }
        ensures files { OnOk result ((disk_at self.new).files ≡ put_file (place_kept file.now)
            (firm_of (torn_file tear (file_of file.now))) (disk_at self.old).files) }
        ensures said { OnOk result ((disk_at self.new).said ≡ (disk_at self.old).said) }
        ensures past { OnOk result ((disk_at self.new).past ≡ (disk_at self.old).past) }
        ensures unused { OnOk result (KeepsUnused self.old self.new) }
    {
        match file.torn(alloc, tear)? {
            Some(bytes) => self.add_file(file.server, file.name.as_str(), &bytes),
            None => Ok(()),
        }
    }

    /// The bytes of a file that stands.
    #[tactic(auto, unfolding(crate::specs::Held::disk_held))]
    pub fn file(&self, server: u32, name: &str) -> Option<&[u8]>
        ensures { seen result ≡ standing ((disk_at self.now).files (server, name.now)) }
    {
        match self.history.contents.file(server, name) {
            Some(file) => Some(&file.bytes),
            None => None,
        }
    }

    /// All that was said.
    #[tactic(auto, unfolding(crate::specs::Held::disk_held))]
    pub fn said(&self) -> &[u8]
        ensures { result.now ≡ (disk_at self.now).said }
    {
        &self.history.contents.said
    }

    /// The number of calls that were made.
    pub fn calls(&self) -> u64
        ensures { result ≡ (counts_at self.now).calls }
    {
        self.tally.calls
    }

    /// The number of calls that failed for want of memory.
    pub fn wants(&self) -> u64
        ensures { result ≡ wants_at self.now }
    {
        self.wants
    }
}

impl Site for MemSite {
    ghost use Rattle.std.specs.Prelude.{◌≡◌, ◌<◌, ◌≤◌, ◌+◌, ◌++◌, true, IsTrue, IsSome, IsErr, IsErrOf, OnOk, IfOk, Some, None, is_err, length, take, drop, map, string_bytes};
    ghost use Rattle.site_model.specs.Disk.{Appends, Syncs, Cuts, Renames, Removes, Says, IsRenamed, IsListOf, appends, syncs, cuts, renames, removes, says, grown, synced, cut_to, bytes_of, length_of, size_of};
    ghost use Rattle.site_model.specs.Counts.{CountsRead, CountsWrite, CountsSay};
    ghost use Rattle.site_mem.specs.Events.{called};
    ghost use Rattle.site_mem.specs.Site.{disk_at, counts_at, next_at, fails_at, read_fails_next, Makes, Looks};

    ghost tells = { true };

    ghost disk = { disk_at };

    ghost counts = { counts_at };

    ghost servers = { λ m. m.servers };

    fn servers(&self) -> u32 {
        self.servers
    }

    fn list(&mut self, alloc: Global, server: u32) -> Result<Vec<String>, SiteError>
        requires { server < self.old.servers }
        ensures names { IfOk result (λ names. IsListOf (disk_at self.old).files server
            (map string_bytes names.items)) }
        ensures same { disk_at self.new ≡ disk_at self.old }
        ensures counts { CountsRead server 0 (counts_at self.old) (counts_at self.new)
            (IsErrOf result SiteError.Failed) }
        ensures servers { self.new.servers ≡ self.old.servers }
        ensures looked { Looks (fails_at self.old (next_at self.old)) self.old self.new
            (IsErrOf result SiteError.Failed) }
    {
        let is_listed = self.fails_next();
        self.look(server, 0, is_listed);
        if is_listed {
            return Err(SiteError::Failed);
        }
        match self.history.contents.names(alloc, server) {
            Ok(names) => Ok(names),
            Err(_) => Err(SiteError::Memory),
        }
    }

    fn size(&mut self, server: u32, name: &str) -> Result<Option<u64>, Failed>
        requires { server < self.old.servers }
        ensures size { IfOk result (λ n. n ≡ size_of ((disk_at self.old).files (server, name.now))) }
        ensures same { disk_at self.new ≡ disk_at self.old }
        ensures counts { CountsRead server 0 (counts_at self.old) (counts_at self.new) (IsErr result) }
        ensures servers { self.new.servers ≡ self.old.servers }
        ensures looked { Looks (fails_at self.old (next_at self.old)) self.old self.new (IsErr result) }
    {
        let is_listed = self.fails_next();
        self.look(server, 0, is_listed);
        if is_listed {
            return Err(Failed);
        }
        Ok(self.length(server, name))
    }

    fn read(&mut self, server: u32, name: &str, at: u64, out: &mut [u8]) -> Result<(), Failed>
        requires server { server < self.old.servers }
        requires within { at + length out.old
            ≤ length (bytes_of ((disk_at self.old).files (server, name.now))) }
        ensures bytes { OnOk result (out.new ≡ take (length out.old)
            (drop at (bytes_of ((disk_at self.old).files (server, name.now))))) }
        ensures same { disk_at self.new ≡ disk_at self.old }
        ensures counts { CountsRead server (length out.old) (counts_at self.old) (counts_at self.new)
            (IsErr result) }
        ensures servers { self.new.servers ≡ self.old.servers }
        ensures looked { Looks (read_fails_next self.old server) self.old self.new (IsErr result) }
    {
        let is_listed = self.listed.has_read(server, self.tally.next());
        self.look(server, out.len(), is_listed);
        if is_listed {
            return Err(Failed);
        }
        self.fill(server, name, at, out);
        Ok(())
    }

    fn append(&mut self, server: u32, name: &str, bytes: &[u8]) -> Result<(), Failed>
        requires { server < self.old.servers }
        ensures done { OnOk result ((disk_at self.new).files (server, name.now)
            ≡ Some (grown ((disk_at self.old).files (server, name.now)) bytes.now)) }
        ensures effect { Appends (server, name.now) bytes.now (disk_at self.old) (disk_at self.new) }
        ensures counts { CountsWrite server (length bytes.now) (counts_at self.old) (counts_at self.new)
            (IsErr result) }
        ensures servers { self.new.servers ≡ self.old.servers }
        ensures made { Makes (called (appends (server, name.now) bytes.now)) self.old self.new
            (is_err result) }
    {
        self.make(Asked::Append {
            server,
            name,
            bytes,
        })
    }

    fn sync(&mut self, server: u32, name: &str) -> Result<(), Failed>
        requires { server < self.old.servers }
        ensures done { OnOk result ((disk_at self.new).files (server, name.now)
            ≡ synced ((disk_at self.old).files (server, name.now))) }
        ensures effect { Syncs (server, name.now) (disk_at self.old) (disk_at self.new) }
        ensures counts { CountsWrite server 0 (counts_at self.old) (counts_at self.new) (IsErr result) }
        ensures servers { self.new.servers ≡ self.old.servers }
        ensures made { Makes (called (syncs (server, name.now))) self.old self.new (is_err result) }
    {
        self.make(Asked::Sync { server, name })
    }

    fn cut(&mut self, server: u32, name: &str, length: u64) -> Result<(), Failed>
        requires { server < self.old.servers }
        ensures done { OnOk result ((disk_at self.new).files (server, name.now)
            ≡ cut_to length ((disk_at self.old).files (server, name.now))) }
        ensures effect { Cuts (server, name.now) length (disk_at self.old) (disk_at self.new) }
        ensures counts { CountsWrite server 0 (counts_at self.old) (counts_at self.new) (IsErr result) }
        ensures servers { self.new.servers ≡ self.old.servers }
        ensures made { Makes (called (cuts (server, name.now) length)) self.old self.new (is_err result) }
    {
        self.make(Asked::Cut {
            server,
            name,
            length,
        })
    }

    fn rename(&mut self, server: u32, old: &str, new: &str) -> Result<(), Failed>
        requires { server < self.old.servers }
        ensures done { OnOk result (IsRenamed (server, old.now) (server, new.now) (disk_at self.old).files
            (disk_at self.new).files) }
        ensures effect { Renames (server, old.now) (server, new.now) (disk_at self.old) (disk_at self.new) }
        ensures counts { CountsWrite server 0 (counts_at self.old) (counts_at self.new) (IsErr result) }
        ensures servers { self.new.servers ≡ self.old.servers }
        ensures made { Makes (called (renames (server, old.now) (server, new.now))) self.old self.new
            (is_err result) }
    {
        self.make(Asked::Rename { server, old, new })
    }

    fn remove(&mut self, server: u32, name: &str) -> Result<(), Failed>
        requires { server < self.old.servers }
        ensures done { OnOk result ((disk_at self.new).files (server, name.now) ≡ None) }
        ensures effect { Removes (server, name.now) (disk_at self.old) (disk_at self.new) }
        ensures counts { CountsWrite server 0 (counts_at self.old) (counts_at self.new) (IsErr result) }
        ensures servers { self.new.servers ≡ self.old.servers }
        ensures made { Makes (called (removes (server, name.now))) self.old self.new (is_err result) }
    {
        self.make(Asked::Remove { server, name })
    }

    fn say(&mut self, bytes: &[u8]) -> Result<(), Failed>
        ensures done { OnOk result ((disk_at self.new).said ≡ (disk_at self.old).said ++ bytes.now) }
        ensures effect { Says bytes.now (disk_at self.old) (disk_at self.new) }
        ensures counts { CountsSay (counts_at self.old) (counts_at self.new) (IsErr result) }
        ensures servers { self.new.servers ≡ self.old.servers }
        ensures made { Makes (called (says bytes.now)) self.old self.new (is_err result) }
    {
        self.make(Asked::Say { bytes })
    }
}
