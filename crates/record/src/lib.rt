// Records: as they are lent, their rules, and samples.
#![tactic(auto)]

pub mod rules;
pub mod samples;

// A record as it is lent: a duration for each piece, and the values piece by piece, channel by channel.
#[derive(Clone, Copy)]
pub struct Record<'a> {
    pub durations: &'a [u32],
    pub values: &'a [i32],
}
