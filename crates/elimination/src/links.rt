//! The links from each eliminated vertex to the last one of its part.

ghost use Rattle.std.specs.Prelude.{◌≡◌, ℕ, ◌<◌, ◌≤◌, length};
ghost use Rattle.elimination.specs.Quotients.{AreLinks, LeadsTo, at};

// The last vertex of the part of an eliminated vertex; the links on the way are shortened.
pub fn last_of(links: &mut [u32], turns: &[u32], d: u32) -> u32
    requires within { d < length links.old }
    requires gone { 0 < at turns.now d }
    requires linked { AreLinks (at turns.now) links.old }
    ensures linked { AreLinks (at turns.now) links.new }
    ensures leads { (part : ℕ → ℕ) → LeadsTo (at turns.now) part links.old → LeadsTo (at turns.now) part links.new }
    ensures found { (part : ℕ → ℕ) → LeadsTo (at turns.now) part links.old → result ≡ part d }
    ensures inside { result < length links.old }
    ensures gone { 0 < at turns.now result }
{
    let mut x = d;
    'up: loop {
        let next = links[x as usize];
        if next == x {
            return x;
        }
        let further = links[next as usize];
        links[x as usize] = further;
        x = further;
    }
}
