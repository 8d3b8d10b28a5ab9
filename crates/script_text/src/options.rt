//! The options of lines: a key in front of a value, in one word.
ghost use Rattle.std.specs.Prelude.{◌≡◌, codes};
ghost use Rattle.script_text.specs.Grammar.{job_option, mark_option, option_in, ratio_option, steps_in, u32_in, volume_option};
ghost use Rattle.world_model.specs.Ratios.{ratio_in};

use crate::values::{steps_word, u32_word, u64_word};
use crate::words::is_word;
use world_model::types::Ratio;

pub(crate) fn volume_option(word: &[u8]) -> Option<u32>
    ensures { result ≡ volume_option word.now }
{
    u32_word(word.strip_prefix(b"-volumeId=")?)
}

pub(crate) fn server_option(word: &[u8]) -> Option<u32>
    ensures { result ≡ option_in (codes "-server=") u32_in word.now }
{
    u32_word(word.strip_prefix(b"-server=")?)
}

pub(crate) fn job_option(word: &[u8]) -> Option<u64>
    ensures { result ≡ job_option word.now }
{
    u64_word(word.strip_prefix(b"-job=")?)
}

pub(crate) fn steps_option(word: &[u8]) -> Option<u32>
    ensures { result ≡ option_in (codes "-steps=") steps_in word.now }
{
    steps_word(word.strip_prefix(b"-steps=")?)
}

pub(crate) fn ratio_option(word: &[u8]) -> Option<Ratio>
    ensures { result ≡ ratio_option word.now }
{
    ratio_word(word.strip_prefix(b"-ratio=")?)
}

// The ratio that a word is.
fn ratio_word(word: &[u8]) -> Option<Ratio>
    ensures { result ≡ ratio_in word.now }
{
    match str::from_utf8(word) {
        Ok(text) => Ratio::of_word(text),
        Err(_) => None,
    }
}

/// Whether a volume is to be sealed.
pub(crate) fn mark_option(word: &[u8]) -> Option<bool>
    ensures { result ≡ mark_option word.now }
{
    if is_word(word, b"-readonly") {
        Some(true)
    } else if is_word(word, b"-writable") {
        Some(false)
    } else {
        None
    }
}
