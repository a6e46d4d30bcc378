// The refusals in answers; 0 is for none.
use host_told::answer_number;
use pattern::Refusal;

// As wide as `judge` takes it.
pub fn answer<T>(answered: &Result<T, Refusal>) -> u64 {
    u64::from(answer_number(answered))
}
