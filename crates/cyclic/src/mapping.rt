// Rules 3.4: CyclicMapping, from an index of row a to one of row b, and back.
ghost use Rattle.std.specs.Prelude.{◌≡◌};
ghost use Rattle.refusal.specs.Refusals.{passed, unless, stated};
ghost use Rattle.cyclic.specs.Mapping.{offset_of, steps_of, is_reverse, image, inverse, usable};
ghost use Rattle.cyclic.specs.Mapping.{in_rows, HasIndex};
ghost use Rattle.cyclic.specs.Mapping.{map_index, map_index_inv};

use refusal::Refusal;

// The largest number of steps of a row.
pub const MAX_STEPS: usize = 65535;

// The offset, and the number of steps of a row. Any values, as a project rule has it, so what asks for an index of its
// rows says so (HasIndex).
#[derive(Clone, Copy, Debug, PartialEq, Eq)]
pub enum CyclicMapping {
    Forward(usize, usize),
    Reverse(usize, usize),
}

impl CyclicMapping {
    pub fn is_reverse(self) -> bool
        ensures { result ≡ is_reverse self }
    {
        matches!(self, CyclicMapping::Reverse(_, _))
    }

    pub fn offset(self) -> usize
        ensures { result ≡ offset_of self }
    {
        match self {
            CyclicMapping::Forward(offset, _) | CyclicMapping::Reverse(offset, _) => offset,
        }
    }

    // The number of steps of its rows.
    pub fn steps(self) -> usize
        ensures { result ≡ steps_of self }
    {
        match self {
            CyclicMapping::Forward(_, steps) | CyclicMapping::Reverse(_, steps) => steps,
        }
    }

    // The image of a_idx: the index of b that it joins.
    #[tactic(auto, unfolding(crate::specs::Mapping::map_index))]
    pub fn map_index(self, a_idx: usize) -> Result<usize, Refusal>
        ensures { stated result ≡ map_index self a_idx }
    {
        self.check_index(a_idx)?;
        Ok(self.image(a_idx))
    }

    // The inverse image of b_idx: the index of a that it joins.
    #[tactic(auto, unfolding(crate::specs::Mapping::map_index_inv))]
    pub fn map_index_inv(self, b_idx: usize) -> Result<usize, Refusal>
        ensures { stated result ≡ map_index_inv self b_idx }
    {
        self.check_index(b_idx)?;
        Ok(self.inverse(b_idx))
    }

    // Refusal 8: where the mapping cannot be a search's answer, or the index is none of its rows'.
    fn check_index(self, index: usize) -> Result<(), Refusal>
        ensures { result ≡ unless (usable self index) (Refusal.NotThere) passed }
    {
        if in_rows(self.offset(), self.steps(), index) {
            Ok(())
        } else {
            Err(Refusal::NotThere)
        }
    }

    // map_index of an index that is there.
    #[tactic(auto, unfolding(crate::specs::Mapping::image))]
    pub fn image(self, a_idx: usize) -> usize
        requires { HasIndex self a_idx }
        ensures { result ≡ image self a_idx }
    {
        match self {
            CyclicMapping::Forward(0, _) => a_idx,
            CyclicMapping::Forward(offset, steps) => (offset + a_idx) % steps,
            CyclicMapping::Reverse(offset, steps) => reversed(offset, steps, a_idx),
        }
    }

    // map_index_inv of an index that is there. No twin of image: forward the rule has two formulas (Rules 3.4).
    #[tactic(auto, unfolding(crate::specs::Mapping::image, crate::specs::Mapping::inverse))]
    pub fn inverse(self, b_idx: usize) -> usize
        requires { HasIndex self b_idx }
        ensures { result ≡ inverse self b_idx }
    {
        match self {
            CyclicMapping::Forward(0, _) => b_idx,
            CyclicMapping::Forward(offset, steps) => (b_idx + steps - offset % steps) % steps,
            CyclicMapping::Reverse(offset, steps) => reversed(offset, steps, b_idx),
        }
    }
}

// The index that j joins where the rows run against each other, from a to b and from b to a.
#[tactic(auto, unfolding(crate::specs::Mapping::image))]
fn reversed(offset: usize, steps: usize, j: usize) -> usize
    requires { HasIndex (CyclicMapping.Reverse offset steps) j }
    ensures { result ≡ image (CyclicMapping.Reverse offset steps) j }
{
    if offset == 0 {
        steps - j
    } else {
        (offset + steps - j % steps) % steps
    }
}

// Whether rows of that many steps can be searched, and have the offset and the index.
fn in_rows(offset: usize, steps: usize, index: usize) -> bool
    ensures { result ≡ in_rows offset steps index }
{
    1 <= steps && steps <= MAX_STEPS && offset < steps && index <= steps
}
