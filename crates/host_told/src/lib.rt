// The library's answers as a host in C is told them: plain numbers, or structs of numbers.
#![tactic(auto)]

ghost use Rattle.std.specs.Prelude.{◌≡◌};
ghost use Rattle.pattern.specs.Refusal.{number_of};
ghost use Rattle.monitor.specs.Open.{answer_number};
ghost use Rattle.host_told.specs.Told.{counted_cells, price_told, best_told};

use best::Run;
use pattern::Refusal;

// What a run is worth; 0 beside a refusal.
#[repr(C)]
#[derive(Clone, Copy, Default)]
pub struct RunPrice {
    pub refusal: u32,
    pub score: i64,
}

// The best run of a record: `found` is 1, or 0 if there is none; then, and beside a refusal, the rest is 0.
#[repr(C)]
#[derive(Clone, Copy, Default)]
pub struct RecordBest {
    pub refusal: u32,
    pub found: u32,
    pub end: u32,
    pub begin: u32,
    pub score: i64,
}

// The number of a refusal, as wide as a host is told it.
pub fn cause_number(cause: Refusal) -> u32
    ensures { result ≡ number_of cause }
{
    u32::from(u8::from(cause))
}

// 0 if the answer is no refusal, whatever it hands back, or the refusal's number.
pub fn answer_number<T>(answer: &Result<T, Refusal>) -> u32
    ensures { result ≡ answer_number answer.now }
{
    match answer {
        Ok(_) => 0,
        Err(cause) => cause_number(*cause),
    }
}

// The cells that were counted, 0 beside a refusal.
pub fn counted_cells(counted: Result<u64, Refusal>) -> u64
    ensures { result ≡ counted_cells counted }
{
    counted.unwrap_or(0)
}

// A price as the host is told it.
impl From<Result<i64, Refusal>> for RunPrice {
    ghost from_gives = { λ answer told. told ≡ price_told answer };

    fn from(answer: Result<i64, Refusal>) -> RunPrice {
        match answer {
            Ok(worth) => RunPrice {
                score: worth,
                ..RunPrice::default()
            },
            Err(cause) => RunPrice {
                refusal: cause_number(cause),
                ..RunPrice::default()
            },
        }
    }
}

// The best as the host is told it.
impl From<Result<Option<Run>, Refusal>> for RecordBest {
    ghost from_gives = { λ answer told. told ≡ best_told answer };

    fn from(answer: Result<Option<Run>, Refusal>) -> RecordBest {
        match answer {
            Ok(Some(run)) => RecordBest {
                found: 1,
                end: run.end,
                begin: run.begin,
                score: run.score,
                ..RecordBest::default()
            },
            Ok(None) => RecordBest::default(),
            Err(cause) => RecordBest {
                refusal: cause_number(cause),
                ..RecordBest::default()
            },
        }
    }
}
