//! The ids of a journal.
ghost use Rattle.std.specs.Prelude.{◌≡◌, ◌<◌, ◌+◌, ◌*◌, ◌⊎◌, ◌≤◌, IsTrue, IfOk, IfErr, IsErrOf, length};
ghost use Rattle.site_model.specs.Disk.{bytes_of};
ghost use Rattle.site_model.specs.Counts.{CallsAt};
ghost use Rattle.wire_num.specs.Pairs.{pairs};
ghost use Rattle.file_names.specs.Names.{final_place};
ghost use Rattle.ecj_journal.specs.Journals.{IsJournalOf};

use file_names::{Kind, final_name};
use site_model::{DeviceFault, Site};
use std::alloc::{AllocError, Global};
use whole_file::{FileFault, read_range};
use wire_num::get_u64;

// The bytes of a pair.
const PAIR: usize = 16;

/// What a journal's file holds.
#[derive(Debug, Drop)]
pub struct Journal {
    /// The ids of the leading pairs whose halves are equal.
    pub ids: Vec<u64>,
    /// How many bytes stand behind them.
    pub rest: u64,
}

/// The journal of the volume at a server. An absent one has no id.
pub fn read_pairs<T: Site>(
    alloc: Global,
    site: &mut T,
    server: u32,
    volume: u32,
) -> Result<Journal, FileFault>
    requires { server < T.servers site.old }
    ensures journal { IfOk result (λ journal. IsTrue T.tells
        → IsJournalOf (bytes_of ((T.disk site.old).files (final_place server volume Kind.Ecj))) journal) }
    ensures same { IsTrue T.tells → T.disk site.new ≡ T.disk site.old }
    ensures runs { CallsAt T.counts T.servers server site.old site.new
        (IsErrOf result (FileFault.Fault (record { server = server }))) }
    ensures blame { IfErr result (λ fault. (fault ≡ FileFault.Memory)
        ⊎ (fault ≡ FileFault.Fault (record { server = server }))) }
{
    let name = final_name(alloc, volume, Kind::Ecj)?;
    let size = match site.size(server, &name) {
        Ok(Some(size)) => size as usize,
        Ok(None) => 0,
        Err(_) => return Err(FileFault::Fault(DeviceFault { server })),
    };
    let bytes = read_range(alloc, site, server, &name, 0, size)?;
    let journal = journal_of(alloc, &bytes)?;
    Ok(journal)
}

fn journal_of(alloc: Global, bytes: &[u8]) -> Result<Journal, AllocError>
    ensures { IfOk result (IsJournalOf bytes.now) }
{
    let ids = ids_of(alloc, bytes)?;
    let rest = (bytes.len() - PAIR * ids.len()) as u64;
    Ok(Journal { ids, rest })
}

fn ids_of(alloc: Global, bytes: &[u8]) -> Result<Vec<u64>, AllocError>
    ensures ids { IfOk result (λ ids. ids.items ≡ pairs bytes.now) }
    ensures within { IfOk result (λ ids. 16 * length ids.items ≤ length bytes.now) }
{
    let mut ids = Vec::new(alloc);
    for place in 0..bytes.len() / PAIR {
        let at = PAIR * place;
        let id = get_u64(bytes, at);
        if id != get_u64(bytes, at + 8) {
            return Ok(ids);
        }
        ids.push(id)?;
    }
    Ok(ids)
}
