// The checks of a mailbox that has been taken, in the rules' order.
ghost use Rattle.std.specs.Prelude.{◌≡◌};
ghost use Rattle.additions.specs.Taking.{passed, leaving};
ghost use Rattle.additions.specs.Steps.{last_checks};
ghost use Rattle.additions.specs.Held.{held};

use crate::addend::Addend;
use crate::writable::is_writable;
use marks::fault::{Fault, Ground, Layer};
use writer::AT;

impl Addend {
    #[tactic(auto, using(characters::proofs::Containing::among_contains))]
    pub(super) fn judge(&self) -> Result<(), Fault>
        ensures { leaving result (held self.now) ≡ passed (last_checks (held self.now)) (held self.now) }
    {
        let mailbox = self.mailbox();
        if !mailbox.addr.contains(&AT) {
            return Err(Layer::List.fault(Ground::AddressWithoutAt, 0));
        }
        if !is_writable(mailbox) {
            return Err(Layer::List.fault(Ground::UnwritableAddress, 0));
        }
        Ok(())
    }
}
