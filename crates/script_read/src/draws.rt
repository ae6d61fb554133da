//! Numbers that are drawn one after another.

ghost use Rattle.std.specs.Prelude.{◌≡◌, ◌+◌, ◌%◌, ◌<◌, ◌≤◌, ◌^◌};
ghost use Rattle.script_read.specs.Making.{next_number};

/// The chain of numbers that draws come from, by the number from which it goes on.
#[derive(Drop)]
pub(crate) struct Draws {
    number: u64,
    ghost in_range: { number < 2 ^ 31 },
}

impl Draws {
    /// The chain of the script of that number.
    pub(crate) fn start(number: u32) -> Draws
        requires { number ≤ 1000000 }
        ensures { result.number ≡ number + 1 }
    {
        Draws {
            number: number as u64 + 1,
        }
    }

    /// A number below `limit`.
    pub(crate) fn below(&mut self, limit: u32) -> u32
        requires { 0 < limit }
        ensures value { result ≡ next_number self.old.number % limit }
        ensures number { self.new.number ≡ next_number self.old.number }
        ensures bound { result < limit }
    {
        self.number = self.number * 48_271 % 2_147_483_647;
        (self.number % limit as u64) as u32
    }
}
