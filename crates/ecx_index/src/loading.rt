//! A whole index, read in pieces of whole entries.
ghost use Rattle.std.specs.Prelude.{◌≡◌, ◌<◌, ◌-◌, ◌≤◌, ◌%◌, ◌↔◌, min, Some, IsTrue, IfOk, IfErr, IsErr, IsErrOf, length, take, drop};
ghost use Rattle.site_model.specs.Disk.{bytes_of, length_of, size_of};
ghost use Rattle.site_model.specs.Counts.{CallsAt, widest_piece};
ghost use Rattle.file_names.specs.Names.{final_place};
ghost use Rattle.ecx_index.specs.Loading.{IsIndexFile, IsLoaded, Blames, IsAbove};

use file_names::{Kind, final_name};
use needle_map::NeedleMap;
use site_model::{DeviceFault, OpenFault, PIECE, Site};
use std::alloc::{AllocError, Global};
use volume_forms::{ENTRY_LENGTH, Entry, read_entry};

// The rule that an index is whole entries, by rising id, of contents.
const RULE_INDEX: u8 = 5;

/// The index of a coded volume at a server, read whole, in pieces of at most 65,536 bytes. `Unsound` has rule 5
/// where the file is absent, where its length is no multiple of 16, where the ids don't rise, or where a size
/// isn't above 0.
pub fn load<T: Site>(
    alloc: Global,
    site: &mut T,
    server: u32,
    volume: u32,
) -> Result<NeedleMap, OpenFault>
    requires { server < T.servers site.old }
    ensures index { IfOk result (λ index. IsTrue T.tells
        → IsLoaded ((T.disk site.old).files (final_place server volume Kind.Ecx)) index) }
    ensures unsound { IsErrOf result (OpenFault.Unsound volume 5) → IsTrue T.tells
        → ¬ IsIndexFile ((T.disk site.old).files (final_place server volume Kind.Ecx)) }
    ensures blame { IfErr result (Blames server volume) }
    ensures same { IsTrue T.tells → T.disk site.new ≡ T.disk site.old }
    ensures runs { CallsAt T.counts T.servers server site.old site.new
        (IsErrOf result (OpenFault.Fault server)) }
{
    let name = final_name(alloc, volume, Kind::Ecx)?;
    let mut room = room_for_a_piece(alloc)?;
    load_named(alloc, site, server, volume, &name, &mut room)
}

fn room_for_a_piece(alloc: Global) -> Result<Vec<u8>, AllocError>
    ensures { IfOk result (λ room. length room.items ≡ widest_piece) }
{
    vec![in alloc; 0; PIECE]
}

// The same by the file's name, with room for a piece.
fn load_named<T: Site>(
    alloc: Global,
    site: &mut T,
    server: u32,
    volume: u32,
    name: &str,
    room: &mut [u8],
) -> Result<NeedleMap, OpenFault>
    requires server { server < T.servers site.old }
    requires room { length room.old ≡ widest_piece }
    ensures index { IfOk result (λ index. IsTrue T.tells
        → IsLoaded ((T.disk site.old).files (server, name.now)) index) }
    ensures unsound { IsErrOf result (OpenFault.Unsound volume 5) → IsTrue T.tells
        → ¬ IsIndexFile ((T.disk site.old).files (server, name.now)) }
    ensures blame { IfErr result (Blames server volume) }
    ensures same { IsTrue T.tells → T.disk site.new ≡ T.disk site.old }
    ensures runs { CallsAt T.counts T.servers server site.old site.new
        (IsErrOf result (OpenFault.Fault server)) }
{
    let end = length_of_index(site, server, volume, name)?;
    let mut loading = Loading::new(alloc, volume);
    let mut at = 0;
    while at < end {
        let count = read_piece(site, server, name, at, end, room)?;
        loading.take_all(&room[..count])?;
        at += count as u64;
    }
    Ok(loading.index)
}

// The length of the file, which is whole entries.
fn length_of_index<T: Site>(
    site: &mut T,
    server: u32,
    volume: u32,
    name: &str,
) -> Result<u64, OpenFault>
    requires { server < T.servers site.old }
    ensures size { IfOk result (λ n. IsTrue T.tells
        → size_of ((T.disk site.old).files (server, name.now)) ≡ Some n) }
    ensures whole { IfOk result (λ n. n % 16 ≡ 0) }
    ensures unsound { IsErrOf result (OpenFault.Unsound volume 5) → IsTrue T.tells
        → ¬ IsIndexFile ((T.disk site.old).files (server, name.now)) }
    ensures blame { IfErr result (Blames server volume) }
    ensures same { IsTrue T.tells → T.disk site.new ≡ T.disk site.old }
    ensures runs { CallsAt T.counts T.servers server site.old site.new
        (IsErrOf result (OpenFault.Fault server)) }
{
    match site.size(server, name) {
        Ok(Some(size)) if size % ENTRY_LENGTH as u64 == 0 => Ok(size),
        Ok(_) => Err(OpenFault::Unsound {
            volume,
            rule: RULE_INDEX,
        }),
        Err(_) => Err(OpenFault::Fault { server }),
    }
}

// Fills the front of the room with what stands from `at` on, and answers how many bytes.
fn read_piece<T: Site>(
    site: &mut T,
    server: u32,
    name: &str,
    at: u64,
    end: u64,
    room: &mut [u8],
) -> Result<usize, DeviceFault>
    requires server { server < T.servers site.old }
    requires some { at < end }
    requires narrow { length room.old ≤ widest_piece }
    requires within { IsTrue T.tells → end ≤ length_of ((T.disk site.old).files (server, name.now)) }
    ensures count { IfOk result (λ count. count ≡ min (length room.old) (end - at)) }
    ensures room { length room.new ≡ length room.old }
    ensures bytes { IfOk result (λ count. IsTrue T.tells
        → take count room.new
        ≡ take count (drop at (bytes_of ((T.disk site.old).files (server, name.now))))) }
    ensures same { IsTrue T.tells → T.disk site.new ≡ T.disk site.old }
    ensures runs { CallsAt T.counts T.servers server site.old site.new (IsErr result) }
    ensures blame { IfErr result (λ fault. fault.server ≡ server) }
{
    let count = room.len().min((end - at) as usize);
    match site.read(server, name, at, &mut room[..count]) {
        Ok(()) => Ok(count),
        Err(_) => Err(DeviceFault { server }),
    }
}

// The entries of a volume's index that were taken so far.
#[derive(Drop)]
struct Loading {
    volume: u32,
    index: NeedleMap,
    // The greatest id.
    last: Option<u64>,
}

impl Loading {
    ghost use Rattle.std.specs.Prelude.{◌≡◌, ◌⊎◌, ◌∷◌, [], IfErr, IsErrOf, OnOk};
    ghost use Rattle.volume_forms.specs.Forms.{entries};
    ghost use Rattle.ecx_index.specs.Loading.{HasTaken, Takes, AreRefused};

    fn new(alloc: Global, volume: u32) -> Loading
        ensures none { HasTaken [] result }
        ensures volume { result.volume ≡ volume }
    {
        Loading {
            volume,
            index: NeedleMap::new(alloc),
            last: None,
        }
    }

    // Takes the entries that the bytes spell.
    fn take_all(&mut self, bytes: &[u8]) -> Result<(), OpenFault>
        ensures taken { OnOk result (Takes (entries bytes.now) self.old self.new) }
        ensures refused { IsErrOf result (OpenFault.Unsound self.old.volume 5)
            → AreRefused (entries bytes.now) self.old }
        ensures blame { IfErr result (λ fault. (fault ≡ OpenFault.Memory)
            ⊎ (fault ≡ OpenFault.Unsound self.old.volume 5)) }
        ensures volume { self.new.volume ≡ self.old.volume }
    {
        let mut rest = bytes;
        while let Some((entry, behind)) = rest.split_first_chunk::<ENTRY_LENGTH>() {
            self.take(read_entry(entry))?;
            rest = behind;
        }
        Ok(())
    }

    // Takes one entry, whose id is above all others, and which is of a content.
    fn take(&mut self, entry: Entry) -> Result<(), OpenFault>
        ensures taken { OnOk result (Takes (entry ∷ []) self.old self.new) }
        ensures refused { IsErrOf result (OpenFault.Unsound self.old.volume 5)
            → AreRefused (entry ∷ []) self.old }
        ensures blame { IfErr result (λ fault. (fault ≡ OpenFault.Memory)
            ⊎ (fault ≡ OpenFault.Unsound self.old.volume 5)) }
        ensures volume { self.new.volume ≡ self.old.volume }
    {
        if entry.size <= 0 || !is_above(self.last, entry.id) {
            return Err(OpenFault::Unsound {
                volume: self.volume,
                rule: RULE_INDEX,
            });
        }
        self.index.put(entry)?;
        self.last = Some(entry.id);
        Ok(())
    }
}

// Whether the id is above the last one, where there is one.
fn is_above(last: Option<u64>, id: u64) -> bool
    ensures { IsTrue result ↔ IsAbove last id }
{
    match last {
        Some(last) => last < id,
        None => true,
    }
}
