//! What stands behind the answers to all lines.
ghost use Rattle.std.specs.Prelude.{MatchResult, ⊤, Some};
ghost use Rattle.std.specs.String.{string_bytes};
ghost use Rattle.profilelog.specs.Ends.{EndsWith};

use super::hours::Hour;
use super::sessions::Session;
use field::octets::Octets;
use field::primes::Prime;
use lines::openings::FieldName;
use reports::reports::report_on;
use std::alloc::{AllocError, Global};

// The report on an hour, in its field.
fn report_hour(heap: Global, hour: &Hour) -> Result<String, AllocError>
    ensures { MatchResult result (λ text. EndsWith (Some hour.now) (string_bytes text)) (λ e. ⊤) }
{
    match hour.field() {
        FieldName::Prime => report_on::<Prime, _>(heap, hour.rows()),
        FieldName::Octets => report_on::<Octets, _>(heap, hour.rows()),
    }
}

/// The report on the hour that was opened; nothing where none was.
pub fn final_report(heap: Global, session: &Session) -> Result<String, AllocError>
    ensures { MatchResult result (λ text. EndsWith session.now (string_bytes text)) (λ e. ⊤) }
{
    match session.hour() {
        Some(hour) => report_hour(heap, hour),
        None => Ok(String::new(heap)),
    }
}
