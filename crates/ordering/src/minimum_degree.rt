ghost use Rattle.std.specs.Prelude.{◌≡◌, ◌≤◌, length, MatchResult, IfOk};
ghost use Rattle.limits.specs.Limits.{most_mindeg};
ghost use Rattle.patterns.specs.Pattern.{is_joined};
ghost use Rattle.ordering.specs.MinimumDegree.{IsMinimumDegreeOrder, IsMindegRefusal};
ghost use Rattle.permutations.specs.Perm.{IsPerm};
ghost use Rattle.ordering.specs.declared.minimum_degree.MindegRefusal.TheVariants.{NoMemory};

use elimination::by_least_degree;
use limits::MOST_MINDEG;
use patterns::Pattern;
use permutations::{NoMemory, PartialPerm, Perm};
use std::alloc::Global;

/// Why no minimum degree order was made.
#[derive(Clone, Copy, Debug, PartialEq, Eq)]
pub enum MindegRefusal {
    /// The pattern has more vertices than are ordered by minimum degree.
    Limit = 1,
    /// An allocation was refused.
    NoMemory,
}

impl From<NoMemory> for MindegRefusal {
    ghost from_gives = { λ _ e. e ≡ NoMemory };

    fn from(_: NoMemory) -> Self {
        MindegRefusal::NoMemory
    }
}

// The order of elimination of n vertices that is listed.
fn perm_of(alloc: Global, n: u32, list: &[u32]) -> Result<Perm, NoMemory>
    requires { IsPerm n list.now }
    ensures { IfOk result (λ perm. perm ≡ list.now) }
{
    let mut order = PartialPerm::new(alloc, n)?;
    for vertex in list {
        order.push(*vertex)?;
    }
    Ok(order.finish())
}

/// The minimum degree order of a pattern: at each turn a vertex of least degree is eliminated, and of several the one of least number
/// (George and Liu 1989). Degrees are exact. A pattern has one such order (`laws::one_minimum_degree_order`). `Limit` is answered exactly
/// for patterns of more than 50,000 vertices.
pub fn min_degree(alloc: Global, pattern: &Pattern) -> Result<Perm, MindegRefusal>
    ensures { MatchResult result
        (λ order. (length pattern.now ≤ most_mindeg) × IsMinimumDegreeOrder (is_joined pattern.now) (length pattern.now) order)
        (IsMindegRefusal (length pattern.now)) }
{
    if u64::from(pattern.rows()) > MOST_MINDEG {
        return Err(MindegRefusal::Limit);
    }
    let list = by_least_degree(alloc, pattern)?;
    Ok(perm_of(alloc, pattern.rows(), &list)?)
}
