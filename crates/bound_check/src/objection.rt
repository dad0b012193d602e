use claim_check::Shape;
use mp_system::OrderFault;
use peak_bounds::Objection;
use state_search::StatesObjection;

/// What is objected to in a plan with a bound that is not accepted: the first of these that holds.
#[derive(Clone, Copy, Debug, PartialEq, Eq)]
pub enum BoundObjection {
    /// The order is no traversal, from this place on.
    Order(OrderFault),
    /// The peak of the order is not the one that the plan states.
    Peak {
        /// The peak of the order.
        replayed: u64,
        /// The peak that the plan states.
        printed: u64,
    },
    /// What is said against the sums.
    Sums(Objection),
    /// What is said against looking at states.
    States(StatesObjection),
    /// The evidence is claims, and `reduce_shared` makes no term of the system.
    NoTerm,
    /// The last position of the term has no claim with a bound of at least the plan's less 1.
    Root {
        /// The last position.
        last: u32,
    },
    /// A claim stands past the last position, or does not meet its rule. It is the lowest one.
    Claim {
        /// The position of the claim.
        position: u32,
        /// What stands there.
        shape: Shape,
    },
}
