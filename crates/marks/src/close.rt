// How a source closes once no mark waits: `Ok` at the end, or the fault that broke it off.
ghost use Rattle.std.specs.Prelude.{◌≡◌};
ghost use Rattle.marks.specs.Gives.{closing};

use crate::fault::Fault;
use crate::mark::Mark;

// What `next` answers where no mark waits.
pub fn closing(close: Result<(), Fault>) -> Result<Option<Mark>, Fault>
    ensures { result ≡ closing close }
{
    close?;
    Ok(None)
}
