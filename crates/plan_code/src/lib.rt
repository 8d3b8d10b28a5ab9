//! The plans of an encode and of a decode, made of what a volume is and of where its shards stand.
#![tactic(auto)]

mod coded;
mod decode;
mod encode;
mod standing;
#[cfg(test)]
mod tests;

pub use coded::coded_plan;
pub use decode::decode_plan;
pub use encode::encode_plan;
pub use standing::stand_enough;
