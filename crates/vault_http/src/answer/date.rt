//! The date of an answer.
ghost use Rattle.vault_http.specs.Answer.{IsDate};

use httpdate::HttpDate;
use vault_base::moment::Moment;

/// The date that a moment is, where there is one.
pub fn date_of(moment: Option<Moment>) -> Option<HttpDate>
    ensures { IsDate moment result }
{
    let moment = moment?;
    match HttpDate::from_unix_secs(moment.secs()) {
        Ok(date) => Some(date),
        Err(_) => None,
    }
}
