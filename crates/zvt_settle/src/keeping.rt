//! A till that settles, as the till that runs orders.

use crate::settling::SettlingTill;
use std::alloc::Global;
use zvt_till::{BookFault, Keeper, Order, Outgoing, Till, Untaken};

/// It keeps no book beside the till's own.
impl Keeper for SettlingTill {
    ghost use Rattle.std.specs.Prelude.{refl};
    ghost use Rattle.zvt_settle.specs.Inside.{till_inside};
    ghost use Rattle.zvt_settle.specs.Keeping.{never_fails, settling_connects, settling_follows, settling_orders};

    ghost till = { till_inside };

    ghost failed = { never_fails };

    ghost orders = { settling_orders };

    ghost connects = { settling_connects };

    ghost follows = { settling_follows };

    ghost frugal = { refl };

    fn look(&self) -> &Till {
        self.till()
    }

    fn has_failed(&self) -> bool {
        false
    }

    fn order(&mut self, _alloc: Global, order: Order) -> Result<Outgoing, Untaken> {
        match SettlingTill::order(self, order) {
            Ok(outgoing) => Ok(outgoing),
            Err(why) => Err(Untaken::Order(why)),
        }
    }

    fn connect(&mut self, _alloc: Global) -> Result<(), BookFault> {
        self.connected();
        Ok(())
    }
}
