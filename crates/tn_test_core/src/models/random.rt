//! Pseudorandom numbers, the same in each run.

#[derive(Drop)]
pub struct Random {
    seed: u32,
}

impl Random {
    pub fn new(seed: u32) -> Random {
        Random { seed }
    }

    pub fn roll(&mut self, sides: usize) -> usize {
        self.seed = self.seed.wrapping_mul(1_103_515_245).wrapping_add(12_345);
        ((self.seed >> 16) as usize).checked_rem(sides).unwrap_or(0)
    }

    pub fn pick(&mut self, bytes: &[u8]) -> u8 {
        bytes.get(self.roll(bytes.len())).copied().unwrap_or(0)
    }

    pub fn flips(&mut self) -> bool {
        self.roll(2) == 1
    }
}
