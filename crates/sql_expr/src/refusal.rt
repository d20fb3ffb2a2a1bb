//! Why tokens are refused.

ghost use Rattle.std.specs.Prelude.{◌≡◌, ◌≤◌, length, nat_le, if◌then◌else◌, Ok, Err, IfOk, IfErr};
ghost use Rattle.sql_expr.specs.declared.refusal.Refusal.TheVariants.{Memory, Syntax, TooLong};

use crate::token::Rest;
use std::alloc::{AllocError, AllocFailed};

/// What was read, and the tokens after it.
pub type Read<'a, T> = Result<(T, Rest<'a>), Refusal>;

/// Why tokens are refused: the first reason from left to right.
#[derive(Clone, Copy)]
pub enum Refusal {
    Memory,
    /// No statement goes on so, with this many tokens left.
    Syntax(usize),
    /// Past a limit of depth or number.
    TooLong,
    /// A statement that isn't supported.
    Unsupported,
}

impl From<AllocError> for Refusal {
    ghost from_gives = { λ _ e. e ≡ Memory };

    fn from(_e: AllocError) -> Refusal {
        Refusal::Memory
    }
}

impl<T: Drop> From<AllocFailed<T>> for Refusal {
    ghost from_gives = { λ _ e. e ≡ Memory };

    fn from(_e: AllocFailed<T>) -> Refusal {
        Refusal::Memory
    }
}

/// What is next goes on with no statement.
pub fn unexpected(tokens: Rest<'_>) -> Refusal
    ensures { result ≡ Syntax (length tokens.now) }
{
    Refusal::Syntax(tokens.len())
}

/// Refuses more than the limit.
pub fn within(count: usize, limit: usize) -> Result<(), Refusal>
    ensures { result ≡ (if nat_le count limit then Ok tt else Err TooLong) }
{
    if count <= limit {
        Ok(())
    } else {
        Err(Refusal::TooLong)
    }
}

/// What was read before a part, and the part. What was read is let go where the part is refused.
pub fn beside<T: Drop, U>(found: T, part: Result<U, Refusal>) -> Result<(T, U), Refusal>
    ensures kept { IfOk result (λ x. (x.0 ≡ found) × (part ≡ Ok x.1)) }
    ensures refused { IfErr result (λ refusal. part ≡ Err refusal) }
{
    match part {
        Ok(next) => Ok((found, next)),
        Err(refusal) => Err(refusal),
    }
}
