//! Rule 8: each holder's journal is the longest, or it without its last pair, of ids of the index.
ghost use Rattle.std.specs.Prelude.{◌≡◌, ◌+◌, ◌*◌, ◌<◌, ◌≤◌, ◌↔◌, IsTrue, IfOk, IfErr, IsErrOf, MatchBool, MatchOption, ℕ, List, length, slice_index_or};
ghost use Rattle.std.specs.List.{All, Any};
ghost use Rattle.world_model.specs.Sizes.{deletion_length, max_dat};
ghost use Rattle.site_model.specs.Counts.{Calls};
ghost use Rattle.stripe_layout.specs.Laws.Info.{IsInRange};
ghost use Rattle.image_meaning.specs.Sound.{HasJournal};
ghost use Rattle.coded_volume.specs.Checking.{AgreeOn, AreBelow, AreHolders, AreJournals, AreKnown, Breaks, Follows};
ghost use Rattle.coded_volume.specs.Checking.{HasIndexOf, HasLongest, HasRoom, IsJournalAt, IsSiteFault, files_on};

use crate::checking::holders::Holders;
use ecj_journal::{Journal, read_pairs};
use needle_map::NeedleMap;
use site_model::{OpenFault, Site};
use std::alloc::Global;
use stripe_layout::Info;
use world_model::limits::{DELETION_LENGTH, MAX_DAT};

// The rule that all holders have the longest journal, or it without its last pair.
const RULE_JOURNALS: u8 = 8;

// The most bytes that stand behind the pairs of a journal: those of one more.
const MOST_BEHIND: u64 = 16;

/// The ids of the longest journal. The index is the one that all holders have.
pub(crate) fn check_journals<T: Site>(
    alloc: Global,
    site: &mut T,
    volume: u32,
    holders: &Holders,
    info: &Info,
    index: NeedleMap,
) -> Result<Vec<u64>, OpenFault>
    requires servers { AreBelow (T.servers site.old) holders.now }
    requires holders { IsTrue T.tells → AreHolders (files_on (T.disk site.old).files volume) holders.now }
    requires in_range { IsInRange info.now }
    requires index { IsTrue T.tells
        → HasIndexOf (files_on (T.disk site.old).files volume) holders.now info.now index }
    ensures journal { IfOk result (λ ids. HasRoom info.now ids.items × (IsTrue T.tells
        → HasLongest (files_on (T.disk site.old).files volume) info.now ids.items)) }
    ensures broken { IfErr result (Breaks volume 8 (IsTrue T.tells
        → ¬ HasJournal (files_on (T.disk site.old).files volume) info.now)) }
    ensures same { IsTrue T.tells → T.disk site.new ≡ T.disk site.old }
    ensures runs { Calls T.counts T.servers site.old site.new (λ s. IsErrOf result (OpenFault.Fault s)) }
{
    let journals = read_journals(alloc, site, volume, holders)?;
    match agreed_ids(journals, index, info.dat_size) {
        Some(ids) => Ok(ids),
        None => Err(OpenFault::Unsound {
            volume,
            rule: RULE_JOURNALS,
        }),
    }
}

// The journals of all holders.
fn read_journals<T: Site>(
    alloc: Global,
    site: &mut T,
    volume: u32,
    holders: &Holders,
) -> Result<Vec<Journal>, OpenFault>
    requires servers { AreBelow (T.servers site.old) holders.now }
    requires holders { IsTrue T.tells → AreHolders (files_on (T.disk site.old).files volume) holders.now }
    ensures some { IfOk result (λ journals. 0 < length journals.items) }
    ensures journals { IfOk result (λ journals. IsTrue T.tells
        → AreJournals (files_on (T.disk site.old).files volume) journals.items) }
    ensures same { IsTrue T.tells → T.disk site.new ≡ T.disk site.old }
    ensures why { IfErr result IsSiteFault }
    ensures runs { Calls T.counts T.servers site.old site.new (λ s. IsErrOf result (OpenFault.Fault s)) }
{
    let mut journals = Vec::new(alloc);
    let journal = journal_at(alloc, site, volume, holders.first)?;
    journals.push(journal)?;
    for &server in &holders.others {
        let journal = journal_at(alloc, site, volume, server)?;
        journals.push(journal)?;
    }
    Ok(journals)
}

// The journal of one holder.
fn journal_at<T: Site>(
    alloc: Global,
    site: &mut T,
    volume: u32,
    server: u32,
) -> Result<Journal, OpenFault>
    requires { server < T.servers site.old }
    ensures journal { IfOk result (λ journal. IsTrue T.tells
        → IsJournalAt (files_on (T.disk site.old).files volume) server journal) }
    ensures same { IsTrue T.tells → T.disk site.new ≡ T.disk site.old }
    ensures why { IfErr result IsSiteFault }
    ensures runs { Calls T.counts T.servers site.old site.new (λ s. IsErrOf result (OpenFault.Fault s)) }
{
    Ok(read_pairs(alloc, site, server, volume)?)
}

// The ids of the longest journal, if all journals agree on them.
fn agreed_ids(mut journals: Vec<Journal>, index: NeedleMap, dat_size: u64) -> Option<Vec<u64>>
    requires some { 0 < length journals.items }
    requires dat_size { dat_size ≤ max_dat }
    ensures { MatchOption result ((ids : List ℕ) → ¬ AgreeOn journals.items index dat_size ids)
        (λ ids. AgreeOn journals.items index dat_size ids.items) }
{
    let place = longest_place(&journals);
    let ids = &journals[place].ids;
    if !has_room(dat_size, ids.len()) || !all_follow(&journals, ids) || !are_known(index, ids) {
        return None;
    }
    Some(journals.swap_remove(place).ids)
}

// Where the first of the longest journals is.
fn longest_place(journals: &[Journal]) -> usize
    requires { 0 < length journals.now }
    ensures place { result < length journals.now }
    ensures longest { (d : Journal) → All (λ journal. length journal.ids.items
        ≤ length (slice_index_or journals.now result d).ids.items) journals.now }
{
    let mut longest = 0;
    for place in 1..journals.len() {
        if journals[place].ids.len() > journals[longest].ids.len() {
            longest = place;
        }
    }
    longest
}

// Whether there is room for so many deletions.
fn has_room(dat_size: u64, count: usize) -> bool
    requires { dat_size ≤ max_dat }
    ensures { IsTrue result ↔ (dat_size + deletion_length * count ≤ max_dat) }
{
    count as u64 <= (MAX_DAT - dat_size) / DELETION_LENGTH
}

// Whether each journal has these ids, or all but the last.
fn all_follow(journals: &[Journal], ids: &[u64]) -> bool
    ensures { MatchBool result (All (Follows ids.now) journals.now)
        (Any (λ journal. ¬ Follows ids.now journal) journals.now) }
{
    for journal in journals {
        if !follows(journal, ids) {
            return false;
        }
    }
    true
}

fn follows(journal: &Journal, ids: &[u64]) -> bool
    ensures { IsTrue result ↔ Follows ids.now journal.now }
{
    let count = journal.ids.len();
    if journal.rest > MOST_BEHIND {
        return false;
    }
    if count > ids.len() {
        return false;
    }
    if ids.len() - count > 1 {
        return false;
    }
    are_equal(&journal.ids, &ids[..count])
}

fn are_equal(ids: &[u64], others: &[u64]) -> bool
    ensures { IsTrue result ↔ (ids.now ≡ others.now) }
{
    ids == others
}

// Whether each id has an entry of its own.
fn are_known(mut index: NeedleMap, ids: &[u64]) -> bool
    ensures { IsTrue result ↔ AreKnown index ids.now }
{
    for &id in ids {
        if index.get(id).is_none() {
            return false;
        }
        index.remove(id);
    }
    true
}
