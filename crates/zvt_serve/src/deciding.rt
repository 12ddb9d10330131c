//! Decides what becomes of a request for an order.

use crate::troubles::Trouble;
use zvt_journal::Device;
use zvt_kept::PastOrder;
use zvt_service::Service;
use zvt_stream::Machine;
use zvt_till::{Order, Outcome};

/// How the order with a request's key compares with the order that the request asks for.
#[derive(Clone, Copy, Debug, PartialEq, Eq)]
pub enum Known {
    /// It is another order.
    Other,
    /// It is this order, which is running.
    Running,
    /// It is this order, which has ended.
    Ended,
}

/// What the till can do now. If several apply, the first of this list counts.
#[derive(Clone, Copy, Debug, PartialEq, Eq)]
pub enum Standing {
    /// The book failed.
    Failed,
    /// The service ends soon.
    Stopping,
    /// The till is not registered.
    Unregistered,
    /// The till asks its terminal for the last transaction.
    Asking,
    /// An order is running.
    Occupied,
    Ready,
}

/// What becomes of a request for an order.
#[derive(Clone, Copy, Debug, PartialEq, Eq)]
pub enum Decision {
    /// Nothing is sent.
    Refuse(Trouble),
    /// The order was sent before and has ended. Answer with its outcome.
    Replay,
    /// The order was sent before and is running. Answer when it ends.
    Join,
    /// Nothing is recorded yet. Decide again later.
    Hold,
    /// Give the till this order.
    Give(Order),
}

impl Known {
    ghost use Rattle.std.specs.Prelude.{◌≡◌, ◌⊎◌, Ok};
    ghost use Rattle.zvt_serve.specs.Deciding.{known_by};
    ghost use Rattle.zvt_serve.specs.declared.deciding.Known.TheVariants.{Other};

    /// Compares the order with a request's key, and the order that the request asks for if it asks for one.
    pub fn of(past: &PastOrder, wanted: &Result<Order, Trouble>) -> Known
        ensures same { wanted.now ≡ Ok past.now.order → result ≡ known_by past.now.outcome }
        ensures other { (result ≡ Other) ⊎ (wanted.now ≡ Ok past.now.order) }
    {
        match wanted {
            Ok(order) if *order == past.order => Known::by(&past.outcome),
            _ => Known::Other,
        }
    }

    fn by(outcome: &Option<Outcome>) -> Known
        ensures { result ≡ known_by outcome.now }
    {
        match outcome {
            Some(_) => Known::Ended,
            None => Known::Running,
        }
    }
}

impl Standing {
    ghost use Rattle.std.specs.Prelude.{◌≡◌, is_some};
    ghost use Rattle.zvt_kept.specs.KeptTill.{has_failed};
    ghost use Rattle.zvt_service.specs.Service.{rests, state_of};
    ghost use Rattle.zvt_serve.specs.Deciding.{standing_of};

    /// Returns what the till of this service can do now.
    pub fn of<D: Device>(service: &Service<D>, is_stopping: bool) -> Standing
        ensures { result ≡ standing_of (has_failed service.now.kept) is_stopping
            (state_of service.now.kept).registered (is_some (state_of service.now.kept).running) (rests service.now) }
    {
        let till = service.till();
        if service.has_failed() {
            Standing::Failed
        } else if is_stopping {
            Standing::Stopping
        } else if !till.registered() {
            Standing::Unregistered
        } else if till.running().is_some() {
            Standing::Occupied
        } else if service.resting() {
            Standing::Ready
        } else {
            Standing::Asking
        }
    }
}

impl Decision {
    ghost use Rattle.std.specs.Prelude.{◌≡◌, IsSome, IsSomeAnd, None, Ok};
    ghost use Rattle.zvt_service.specs.Service.{found_by};
    ghost use Rattle.zvt_till.specs.declared.orders.Order.{Order};
    ghost use Rattle.zvt_serve.specs.declared.deciding.Decision.TheVariants.{Give, Hold, Join, Replay};
    ghost use Rattle.zvt_serve.specs.Deciding.{decided, decided_fresh, decided_running};

    /// Decides about a request whose key names `known`, if an order has its key. `wanted` is the order that the request
    /// asks for, or why it asks for none.
    pub fn of(known: Option<Known>, standing: Standing, wanted: Result<Order, Trouble>) -> Decision
        ensures { result ≡ decided known standing wanted }
    {
        match (known, wanted) {
            (Some(Known::Other), _) => Decision::Refuse(Trouble::KeyReused),
            (Some(Known::Ended), _) => Decision::Replay,
            (Some(Known::Running), _) => Decision::of_running(standing),
            (None, Err(trouble)) => Decision::Refuse(trouble),
            (None, Ok(order)) => Decision::of_fresh(standing, order),
        }
    }

    /// Decides about a request with this key, which asks for this order, or says why it asks for none.
    ///
    /// An order is given only if no order of the service's books has the key, and the till is ready. An order that was
    /// given before is answered or waited for only if it is the one that the request asks for.
    pub fn about<D: Device>(
        service: &Service<D>,
        is_stopping: bool,
        key: &[u8],
        wanted: Result<Order, Trouble>,
    ) -> Decision
        ensures given { (order : Order) → result ≡ Give order
            → (found_by key.now service.now ≡ None) × (wanted ≡ Ok order) }
        ensures replayed { result ≡ Replay → IsSomeAnd (found_by key.now service.now)
            (λ found. (wanted ≡ Ok found.past.order) × IsSome found.past.outcome) }
        ensures joined { result ≡ Join → IsSomeAnd (found_by key.now service.now)
            (λ found. (wanted ≡ Ok found.past.order) × (found.past.outcome ≡ None)) }
        ensures held { result ≡ Hold → found_by key.now service.now ≡ None }
    {
        let standing = Standing::of(service, is_stopping);
        match service.find(key) {
            Some(found) => Decision::of(Some(Known::of(found.past, &wanted)), standing, wanted),
            None => Decision::of(None, standing, wanted),
        }
    }

    fn of_running(standing: Standing) -> Decision
        ensures { result ≡ decided_running standing }
    {
        match standing {
            Standing::Failed => Decision::Refuse(Trouble::Interrupted),
            _ => Decision::Join,
        }
    }

    fn of_fresh(standing: Standing, order: Order) -> Decision
        ensures { result ≡ decided_fresh standing order }
    {
        match standing {
            Standing::Failed => Decision::Refuse(Trouble::Book),
            Standing::Stopping => Decision::Refuse(Trouble::Stopping),
            Standing::Unregistered | Standing::Asking => Decision::Hold,
            Standing::Occupied => Decision::Refuse(Trouble::Busy),
            Standing::Ready => Decision::Give(order),
        }
    }
}
