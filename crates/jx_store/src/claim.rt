//! A claim on a number, and what a store answers to one who asks for it.
ghost use Rattle.std.specs.Prelude.{◌≡◌};

/// The right to commit under a number. It can't be dropped, only committed.
pub struct Claim {
    number: u32,
    seen: u32,
}

/// What a store answers to a worker that asks for a number.
pub enum ClaimAnswer {
    /// The number is the worker's.
    Claim(Claim),
    /// The numbers `drained` to `next - 1` are claimed and not drained, and fill a window.
    Full { next: u32, drained: u32 },
    /// Every number was claimed.
    AllClaimed,
}

impl Claim {
    /// The claim of `number`, made when `seen` was the first number that wasn't drained. Only the
    /// stores call it.
    pub fn issue(number: u32, seen: u32) -> Claim
        ensures { result ≡ record { number = number; seen = seen } }
    {
        Claim { number, seen }
    }

    /// The number claimed.
    pub fn number(&self) -> u32
        ensures { result ≡ self.now.number }
    {
        self.number
    }

    /// The first number that wasn't drained when this one was claimed.
    pub fn seen(&self) -> u32
        ensures { result ≡ self.now.seen }
    {
        self.seen
    }

    /// The number and `seen` of a claim that is committed. Only the stores call it.
    pub fn spend(self) -> (u32, u32)
        ensures { result ≡ (self.number, self.seen) }
    {
        let Claim { number, seen } = self;
        (number, seen)
    }
}
