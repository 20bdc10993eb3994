ghost use Rattle.std.specs.Prelude.{◌≡◌, Err};
ghost use Rattle.pb_broker.specs.Stops.{stop_of_device};

use crate::requests::Requests;
use crate::stop::Stop;
use pb_pair::Refused;
use pb_pmem::Pmem;

/// What running a script came to, and the device that it was given.
#[derive(Drop)]
pub struct Ran<P: Drop> {
    /// The requests with their outcomes, or why there are none.
    pub served: Result<Requests, Stop>,
    pub device: P,
}

/// A region couldn't be made or opened.
pub fn refused<P: Pmem>(refused: Refused<P>) -> Ran<P>
    ensures served { result.served ≡ Err (stop_of_device refused.why) }
    ensures device { P.seen result.device ≡ P.seen refused.device }
{
    Ran {
        served: Err(Stop::of_device(&refused.why)),
        device: refused.device,
    }
}
