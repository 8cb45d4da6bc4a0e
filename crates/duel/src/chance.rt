// Chance that is the same in every run: a xorshift generator.
ghost use Rattle.std.specs.Prelude.{◌-◌, ◌≤◌};

#[derive(Clone, Copy)]
pub struct Chance {
    state: u64,
}

impl Chance {
    pub fn begun() -> Chance {
        Chance {
            state: 0x9e3779b97f4a7c15,
        }
    }

    fn turn(&mut self) -> u64 {
        self.state ^= self.state << 13;
        self.state ^= self.state >> 7;
        self.state ^= self.state << 17;
        self.state
    }

    // A number below n; 0 for n = 0.
    pub fn below(&mut self, n: u64) -> u64
        ensures { result ≤ n - 1 }
    {
        let next = self.turn();
        if n == 0 {
            return 0;
        }
        (next >> 11) % n
    }

    pub fn percent(&mut self, part: u64) -> bool {
        self.below(100) < part
    }

    pub fn byte(&mut self) -> u8 {
        self.below(256) as u8
    }

    pub fn word(&mut self) -> u32 {
        self.below(4294967296) as u32
    }
}
