// An ascending list of pairs, each once, in the numbers of a lent list.
ghost use Rattle.std.specs.Prelude.{◌≡◌, ◌+◌, ◌*◌, ◌≤◌, length};
ghost use Rattle.surface.specs.Surface.{pair, insert};
ghost use Rattle.mesh.specs.Held.{Spotted};

use std::cmp::Ordering;

// The pairs so far: the first `count` of the list.
#[derive(Drop)]
pub struct Pairs<'a> {
    pub list: &'a mut [usize],
    pub count: usize,
    pub ghost held: { 2 * count ≤ length list.now },
}

// What changes it says `same_pairs`: a contract is all that tells a caller that the list is the same.
impl Pairs<'_> {
    ghost use Rattle.mesh.specs.Writers.{pairs_of, same_pairs};

    // The index of the pair before which (low, high) belongs, or None where it is there already. From the front, as
    // `insert` is defined: a search by halves would need beside the list that it ascends, and is no plainer.
    #[tactic(auto, using(crate::proofs::Holding::spots))]
    fn spot(&self, low: usize, high: usize) -> Option<usize>
        ensures { Spotted result (pair low high) (pairs_of self.now) }
    {
        for i in 0..self.count {
            match (low, high).cmp(&(self.list[2 * i], self.list[2 * i + 1])) {
                Ordering::Less => return Some(i),
                Ordering::Equal => return None,
                Ordering::Greater => {}
            }
        }
        Some(self.count)
    }

    // Puts (low, high) where it belongs, if it is not there.
    #[tactic(auto, using(crate::proofs::Holding::puts))]
    pub fn insert(&mut self, low: usize, high: usize)
        requires { 2 * self.old.count + 2 ≤ length self.old.list.now }
        ensures same { same_pairs self.old self.new }
        ensures pairs { pairs_of self.new ≡ insert (pair low high) (pairs_of self.old) }
    {
        if let Some(i) = self.spot(low, high) {
            self.list.copy_within(2 * i..2 * self.count, 2 * i + 2);
            self.list[2 * i..2 * i + 2].copy_from_slice(&[low, high]);
            self.count += 1;
        }
    }
}
