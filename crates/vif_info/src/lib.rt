//! The text of a `.vif` file: the size of a data file, how many shards it has, and the sizes of the blocks that
//! they are made of.
#![tactic(auto)]

ghost use Rattle.std.specs.Prelude.{◌≡◌, ◌⊎◌, codes, IfOk, IfErr, Some, None, option_map};
ghost use Rattle.serde_json.specs.Errors.{IsMemory};
ghost use Rattle.serde_json.specs.View.{view};
ghost use Rattle.stripe_layout.specs.Information.{number_at, text_at, fields_of, ratio_from, info_of, info_text, json_of};
ghost use Rattle.stripe_layout.specs.Laws.Info.{IsInRange};
ghost use Rattle.vif_info.specs.Reads.{IsReading, IsNumbers, Says, info_with, value_with, value_without, value_for};

use serde_json::{Error, Value, json};
use std::alloc::{AllocError, Global};
use stripe_layout::{Geometry, Info};
use world_model::limits::{MAX_BLOCK, MAX_DAT};
use world_model::types::Ratio;

// The version of volumes that is read and written.
const VERSION: u64 = 3;

/// Why a text was not read, the first that holds.
#[derive(Clone, Copy, Debug, PartialEq, Eq)]
pub enum InfoFault {
    /// It is no JSON.
    NotJson,
    /// It is no object, a number is absent or not whole, or the ratio is no text.
    Field,
    /// A number is out of range, or the ratio is none of the four.
    Range,
    Memory,
}

/// What the text says.
pub fn read_info(alloc: Global, bytes: &[u8]) -> Result<Info, InfoFault>
    ensures exact { IsReading bytes.now result }
{
    let value = read_value(alloc, bytes)?;
    let Some(numbers) = numbers_in(&value) else {
        return Err(InfoFault::Field);
    };
    let Some(ratio) = numbers.ratio else {
        return Err(InfoFault::Range);
    };
    match info_by(numbers, ratio) {
        Some(info) => Ok(info),
        None => Err(InfoFault::Range),
    }
}

fn read_value(alloc: Global, bytes: &[u8]) -> Result<Value, InfoFault>
    ensures value { IfOk result (λ value. Says bytes.now (view value)) }
    ensures fault { IfErr result (λ fault. (fault ≡ InfoFault.NotJson) × (json_of bytes.now ≡ None)
        ⊎ (fault ≡ InfoFault.Memory)) }
{
    match Value::from_slice(alloc, bytes) {
        Ok(value) => Ok(value),
        Err(error) => Err(fault_of(&error)),
    }
}

fn fault_of(error: &Error) -> InfoFault
    ensures { (result ≡ InfoFault.NotJson) × (IsMemory error.now → ⊥) ⊎ (result ≡ InfoFault.Memory) }
{
    if error.is_memory() {
        InfoFault::Memory
    } else {
        InfoFault::NotJson
    }
}

// The numbers of a text, as they stand, and the ratio, if it is one.
#[derive(Clone, Copy)]
struct Numbers {
    dat_size: u64,
    large: u64,
    small: u64,
    version: u64,
    ratio: Option<Ratio>,
}

fn numbers_in(value: &Value) -> Option<Numbers>
    ensures { IsNumbers (fields_of (view value.now)) result }
{
    let dat_size = number_in(value, "datSize")?;
    let large = number_in(value, "large")?;
    let small = number_in(value, "small")?;
    let version = number_in(value, "version")?;
    let ratio = ratio_in(value)?;
    Some(Numbers {
        dat_size,
        large,
        small,
        version,
        ratio,
    })
}

fn number_in(value: &Value, name: &str) -> Option<u64>
    ensures { result ≡ number_at name.now (view value.now) }
{
    value.get(name).and_then(Value::as_u64)
}

// What the text says of the ratio. Without a word of it, it is 10 and 4.
fn ratio_in(value: &Value) -> Option<Option<Ratio>>
    ensures { result ≡ option_map ratio_from (text_at (codes "ratio") (view value.now)) }
{
    match value.get("ratio") {
        None => Some(Some(Ratio::TenFour)),
        Some(member) => {
            let word = member.as_str()?;
            Some(Ratio::of_word(word))
        }
    }
}

fn info_by(numbers: Numbers, ratio: Ratio) -> Option<Info>
    ensures { result ≡ info_with numbers ratio }
{
    let Numbers {
        dat_size,
        large,
        small,
        version,
        ratio: _,
    } = numbers;
    if version != VERSION
        || dat_size < 8
        || dat_size > MAX_DAT
        || large < 1
        || large > u64::from(MAX_BLOCK)
        || small < 1
        || small > large
        || large % small != 0
    {
        return None;
    }
    Some(Info {
        dat_size,
        geometry: Geometry {
            ratio,
            large: large as u32,
            small: small as u32,
        },
    })
}

/// The text that says this. Where the numbers are in range, it is read as the same.
pub fn print_info(alloc: Global, info: &Info) -> Result<Vec<u8>, AllocError>
    ensures text { IfOk result (λ bytes. bytes.items ≡ info_text info.now) }
    ensures reads_back { IfOk result (λ bytes. IsInRange info.now → info_of bytes.items ≡ Some info.now) }
{
    let value = value_of(alloc, info)?;
    let bytes = value.to_vec(alloc)?;
    Ok(bytes)
}

fn value_of(alloc: Global, info: &Info) -> Result<Value, AllocError>
    ensures { IfOk result (λ value. view value ≡ value_for info.now) }
{
    match info.geometry.ratio {
        Ratio::ThreeTwo => with_ratio(alloc, info, Ratio::ThreeTwo.word()),
        Ratio::SixThree => with_ratio(alloc, info, Ratio::SixThree.word()),
        Ratio::TenFour => without_ratio(alloc, info),
        Ratio::TwelveFour => with_ratio(alloc, info, Ratio::TwelveFour.word()),
    }
}

fn without_ratio(alloc: Global, info: &Info) -> Result<Value, AllocError>
    ensures { IfOk result (λ value. view value ≡ value_without info.now) }
{
    let size = info.dat_size;
    let large = info.geometry.large;
    let small = info.geometry.small;
    json!(in alloc; {"datSize": size, "large": large, "small": small, "version": VERSION})
}

fn with_ratio(alloc: Global, info: &Info, word: &str) -> Result<Value, AllocError>
    ensures { IfOk result (λ value. view value ≡ value_with info.now word.now) }
{
    let size = info.dat_size;
    let large = info.geometry.large;
    let small = info.geometry.small;
    json!(in alloc; {"datSize": size, "large": large, "ratio": word, "small": small, "version": VERSION})
}

#[cfg(test)]
mod tests;
